ghost use Rattle.tmw_part.specs.Shared.{is_among, is_unread, list_all, owner_in};
ghost use Rattle.std.specs.Prelude.{IfOk, map, ◌≡◌};
ghost use Rattle.tmw_part.specs.KeptPart.{are_placed, without_number};
ghost use Rattle.tmw_part.specs.PartTest.{is_order_kept, is_part_at, is_row_kept, is_stay};

use crate::is_left_of::{is_left_of, may_go_whole};
use std::alloc::{AllocError, Global};
use tmw_kept::{Transaction, is_among, owner_in, precedes, precedes_at, text_at};

/// Returns these numbers without the first that is this one.
fn without_number(alloc: Global, number: usize, places: &[usize]) -> Result<Vec<usize>, AllocError>
    ensures { IfOk result (λ kept. kept.items ≡ without_number number places.now) }
{
    let mut kept = Vec::new(alloc);
    let mut rest = places;
    while let [place, more @ ..] = rest {
        if *place == number {
            kept.extend_from_slice(more)?;
            return Ok(kept);
        }
        kept.push(*place)?;
        rest = more;
    }
    Ok(kept)
}

/// Whether each of the whole has one of the places or may go, where this part is left, and each place is one of theirs.
fn are_placed(
    alloc: Global,
    part: &[Transaction],
    places: &[usize],
    whole: &[Transaction],
) -> Result<bool, AllocError>
    ensures { IfOk result (λ are. are
        ≡ are_placed (is_unread part.now) 0 places.now whole.now) }
{
    let mut open = places.to_vec(alloc)?;
    let mut rest = whole;
    let mut number = 0;
    while let [transaction, more @ ..] = rest {
        if is_among(number, &open) {
            open = without_number(alloc, number, &open)?;
        } else if !may_go_whole(part, &transaction.text) {
            return Ok(false);
        }
        number += 1;
        rest = more;
    }
    Ok(open.is_empty())
}

/// Whether the one of the part precedes the other just where that is so of those in which their events lie.
fn is_order_kept(
    places: &[usize],
    whole: &[Transaction],
    one: &Transaction,
    other: &Transaction,
) -> bool
    ensures { result ≡ is_order_kept (owner_in places.now whole.now) whole.now one.now other.now }
{
    let (first, second) = (owner_in(places, whole, one), owner_in(places, whole, other));
    precedes_at(whole, first, second) == precedes(one, other)
}

/// Whether real time orders each of the part and this one as it does those in which their events lie.
fn is_row_kept(
    places: &[usize],
    whole: &[Transaction],
    part: &[Transaction],
    one: &Transaction,
) -> bool
    ensures { result ≡ is_row_kept (owner_in places.now whole.now) whole.now part.now one.now }
{
    part.iter()
        .all(|other| is_order_kept(places, whole, other, one))
}

/// Whether a transaction of the part is left of the one in which its events lie, and has its place in real time.
fn is_stay(places: &[usize], whole: &[Transaction], part: &[Transaction], one: &Transaction) -> bool
    ensures { result ≡ is_stay (owner_in places.now whole.now) whole.now part.now one.now }
{
    is_left_of(
        part,
        &one.text,
        text_at(whole, owner_in(places, whole, one)),
    ) && is_row_kept(places, whole, part, one)
}

/// Whether each of the part is left of the one in which its events lie, and has its place in real time.
fn are_stays(places: &[usize], whole: &[Transaction], part: &[Transaction]) -> bool
    ensures { result
        ≡ list_all (is_stay (owner_in places.now whole.now) whole.now part.now) part.now }
{
    part.iter().all(|one| is_stay(places, whole, part, one))
}

/// Returns the places in the whole of those in which the events of the part lie.
fn owners(
    alloc: Global,
    places: &[usize],
    whole: &[Transaction],
    part: &[Transaction],
) -> Result<Vec<usize>, AllocError>
    ensures { IfOk result (λ owners. owners.items
        ≡ map (owner_in places.now whole.now) part.now) }
{
    part.iter()
        .map(|one| owner_in(places, whole, one))
        .collect(alloc)
}

/// Tells whether the one transactions, whose events have these places among those of the others, are a part of these: each
/// is what is left of the one in which its own events lie.
pub(crate) fn is_part(
    alloc: Global,
    places: &[usize],
    part: &[Transaction],
    whole: &[Transaction],
) -> Result<bool, AllocError>
    ensures { IfOk result (λ is. is
        ≡ is_part_at (owner_in places.now whole.now) part.now whole.now) }
{
    let owners = owners(alloc, places, whole, part)?;
    if !are_placed(alloc, part, &owners, whole)? {
        return Ok(false);
    }
    Ok(are_stays(places, whole, part))
}
