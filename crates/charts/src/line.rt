use crate::point::Point;

/// A straight line from one place down to another one.
#[derive(Clone, Copy)]
pub struct Line {
    pub from: Point,
    pub to: Point,
}

impl Line {
    /// Its height where it is so far right.
    pub fn height_at(self, x: i64) -> i64 {
        let whole = self.to.x.saturating_sub(self.from.x);
        let part = x.saturating_sub(self.from.x);
        let down = self.to.y.saturating_sub(self.from.y);
        let height = down.saturating_mul(part).checked_div(whole).unwrap_or(0);
        self.from.y.saturating_add(height)
    }

    /// Its upper and its lower end between two places, if it comes there.
    pub fn heights_between(self, left: i64, right: i64) -> Option<(i64, i64)> {
        let left = left.max(self.from.x.min(self.to.x));
        let right = right.min(self.from.x.max(self.to.x));
        if left >= right {
            return None;
        }
        let (one, other) = (self.height_at(left), self.height_at(right));
        Some((one.min(other), one.max(other)))
    }
}
