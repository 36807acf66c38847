/// The form of what a command prints.
#[derive(Clone, Copy, Debug, PartialEq, Eq)]
pub enum Format {
    /// Words, as the formats of steps and cells have them.
    Plain,
    /// An object in JSON a line, each part by its name.
    Json,
}
