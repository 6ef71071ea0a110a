// What is said of a query.
#[derive(Clone, Copy, Debug, PartialEq, Eq)]
pub enum Reply<T> {
    // A combination of the held columns, of this value.
    Fixed(T),
    // No combination of them: something moves it.
    Free,
}
