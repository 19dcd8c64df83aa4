// Matrices as flat arrays of numbers, row by row: sums of products, the factor, the inverse and the product with a transpose.
#![tactic(auto)]

pub mod factor;
pub mod inverse;
pub mod layout;
pub mod pivots;
pub mod product;
pub mod sums;
