/// A place in a picture, in pixels from its upper left corner.
#[derive(Clone, Copy)]
pub struct Point {
    /// How far right it is.
    pub x: i64,
    /// How far down it is.
    pub y: i64,
}

impl Point {
    /// So far to the right and down of it.
    pub fn moved(self, right: i64, down: i64) -> Point {
        Point {
            x: self.x.saturating_add(right),
            y: self.y.saturating_add(down),
        }
    }
}
