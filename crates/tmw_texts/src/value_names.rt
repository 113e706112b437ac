ghost use Rattle.std.specs.Prelude.{IfOk, OnOk, Some, [], position, ◌++◌, ◌==◌, ◌≡◌};
ghost use Rattle.tmw_texts.specs.ValueNames.{has_name, long_values, name_line, named, names_from, shown_kind, stored_text, value_text, with_kind, with_value};

use crate::event_text::push_kind;
use std::alloc::{AllocError, Global};
use std::collections::BTreeMap;
use std::fmt;
use std::marker::Model;
use tmw_events::{Event, Ix, Kind};

/// The least value of more than nine digits: it is shown by a short name.
const LEAST_LONG: u64 = 1_000_000_000;

/// The long values of some events, each once, in the order in which they appear, and the place of each, by which it is found.
#[derive(Drop)]
pub struct LongValues {
    values: Vec<u64>,
    places: BTreeMap<u64, usize>,
}

impl Model for LongValues {
    ghost use Rattle.std.specs.Prelude.{List, ℕ};
    ghost use Rattle.tmw_texts.specs.ValueNames.{HasPlaces};

    ghost Value = { List ℕ };

    ghost view = { λ all. all.values.items };

    ghost invariant = { λ all. HasPlaces all.values.items all.places };
}

impl LongValues {
    /// Makes none.
    fn new(alloc: Global) -> LongValues
        ensures { result ≡ [] }
    {
        LongValues {
            values: Vec::new(alloc),
            places: BTreeMap::new(alloc),
        }
    }

    /// Returns the values.
    pub fn values(&self) -> &[u64]
        ensures { result.now ≡ self.now }
    {
        &self.values
    }

    /// The place of the value among these.
    fn place_of(&self, value: u64) -> Option<usize>
        ensures { result ≡ position (λ other. other == value) self.now }
    {
        self.places.get(&value).copied()
    }

    /// Whether the value is one of these.
    fn has(&self, value: u64) -> bool
        ensures { result ≡ has_name self.now value }
    {
        self.place_of(value).is_some()
    }

    /// Adds the value, if it is long and not among them.
    fn with_value(self, value: u64) -> Result<LongValues, AllocError>
        ensures { IfOk result (λ more. more ≡ with_value self value) }
    {
        if value < LEAST_LONG || self.has(value) {
            return Ok(self);
        }
        let LongValues {
            mut values,
            mut places,
        } = self;
        places.insert(value, values.len())?;
        values.push(value)?;
        Ok(LongValues { values, places })
    }

    /// Adds the value of an event of this kind, if it has one that is long and not among them.
    fn with_kind(self, kind: Kind) -> Result<LongValues, AllocError>
        ensures { IfOk result (λ more. more ≡ with_kind self kind) }
    {
        match kind {
            Kind::W(_, value) | Kind::N(_, value) | Kind::V(value) => self.with_value(value),
            _ => Ok(self),
        }
    }
}

/// Returns the long values of these events, each once, in the order in which they appear.
pub fn long_values(alloc: Global, events: &[Event]) -> Result<LongValues, AllocError>
    ensures { IfOk result (λ values. values ≡ long_values events.now) }
{
    let mut values = LongValues::new(alloc);
    let mut rest = events;
    while let [event, more @ ..] = rest {
        values = values.with_kind(event.kind)?;
        rest = more;
    }
    Ok(values)
}

/// Prints a value: by its name, if it is the long one at this place.
#[derive(Clone, Copy)]
struct ValueName {
    value: u64,
    place: Option<usize>,
}

impl fmt::Display for ValueName {
    ghost output = { λ own. Some (named own.value own.place) };

    fn fmt<W: fmt::Write>(&self, f: &mut fmt::Formatter<W>) -> fmt::Result {
        let value = self.value;
        match self.place {
            Some(place) => {
                let number = place as u128 + 1;
                write!(f, "v{number}")
            }
            None => write!(f, "{value}"),
        }
    }
}

/// The name of the value, or its digits if it is none of these.
fn name_of(values: &LongValues, value: u64) -> ValueName
    ensures value { result.value ≡ value }
    ensures place { result.place ≡ position (λ other. other == value) values.now }
{
    ValueName {
        value,
        place: values.place_of(value),
    }
}

/// The place of the value among these.
fn place_of(values: &[u64], value: u64) -> Option<usize>
    ensures { result ≡ position (λ other. other == value) values.now }
{
    values.iter().position(|other| *other == value)
}

/// Prints a value: by its name, if it is one of these.
#[derive(Clone, Copy)]
pub struct Value<'a>(pub &'a [u64], pub u64);

impl fmt::Display for Value<'_> {
    ghost output = { λ value. Some (value_text value.0.now value.1) };

    fn fmt<W: fmt::Write>(&self, f: &mut fmt::Formatter<W>) -> fmt::Result {
        let value = self.1;
        let place = place_of(self.0, value);
        let name = ValueName { value, place };
        write!(f, "{name}")
    }
}

/// Adds a letter, a register and a value.
fn push_stored(
    text: &mut Vec<u8>,
    letter: &str,
    register: Ix,
    values: &LongValues,
    value: u64,
) -> Result<(), AllocError>
    ensures { OnOk result (text.new.items ≡ text.old.items
        ++ (letter.now ++ stored_text register.number (value_text values.now value))) }
{
    let (register, value) = (register.get(), name_of(values, value));
    let stored = format!(in *text.allocator(); "{letter} {register} {value}")?;
    text.extend_from_slice(stored.as_bytes())?;
    Ok(())
}

/// Adds the text of an event's kind, with a value that is one of these by its name.
pub fn push_shown(text: &mut Vec<u8>, values: &LongValues, event: &Event) -> Result<(), AllocError>
    ensures { OnOk result (text.new.items ≡ text.old.items ++ shown_kind values.now event.now.kind) }
{
    match event.kind {
        Kind::W(register, value) => push_stored(text, "W", register, values, value),
        Kind::N(register, value) => push_stored(text, "N", register, values, value),
        Kind::V(value) => {
            let value = name_of(values, value);
            let answer = format!(in *text.allocator(); "V {value}")?;
            text.extend_from_slice(answer.as_bytes())?;
            Ok(())
        }
        _ => push_kind(text, event),
    }
}

/// Adds the line that says what the value at this place is called.
fn push_name(text: &mut Vec<u8>, place: usize, value: u64) -> Result<(), AllocError>
    ensures { OnOk result (text.new.items ≡ text.old.items ++ name_line place value) }
{
    let number = place as u128 + 1;
    let line = format!(in *text.allocator(); "    value  v{number} is {value}\n")?;
    text.extend_from_slice(line.as_bytes())?;
    Ok(())
}

/// Adds a line for each of these values, which says what its name is.
pub fn push_names(text: &mut Vec<u8>, values: &[u64]) -> Result<(), AllocError>
    ensures { OnOk result (text.new.items ≡ text.old.items ++ names_from 0 values.now) }
{
    let mut place = 0;
    let mut rest = values;
    while let [value, more @ ..] = rest {
        push_name(text, place, *value)?;
        place += 1;
        rest = more;
    }
    Ok(())
}
