/// How the last window is shown.
#[derive(Clone, Copy, PartialEq, Eq, Debug)]
pub enum Form {
    /// Drawn as text, after the report's line.
    Drawing,
    /// As traces of its own.
    Traces,
    /// As a page of HTML that draws it.
    Page,
}
