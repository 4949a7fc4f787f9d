//! Lists of labels in pieces. A list that continues another shares its pieces, so few labels are copied.
#![tactic(auto)]

mod piece;
mod pieces;
mod sharing;
mod steps;

pub use piece::Piece;
pub use pieces::LabelPieces;
pub use steps::Steps;
