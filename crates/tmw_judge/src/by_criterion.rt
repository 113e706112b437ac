/// One value for each of the requested criteria.
#[derive(Debug, Drop)]
pub enum ByCriterion<T> {
    Opacity(T),
    Strict(T),
    /// By opacity, and then by strict serializability.
    Both(T, T),
}
