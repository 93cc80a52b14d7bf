// What is kept of something that tests can cover.
use crate::spot::Spot;
use asl_json::Txt;

/// Something that tests can cover.
pub struct Point {
    /// Which part of the definition or of the mock file it is.
    pub spot: Spot,
    /// What is told of it, on one line, as `state "A"`.
    pub told: Txt,
    /// Whether a test covered it.
    pub covered: bool,
}

// Written out, so that a caller's proof sees one call and not the drop of each part.
impl Drop for Point {
    fn drop(self) {
        let Point {
            spot: _spot,
            told: _told,
            covered: _covered,
        } = self;
    }
}
