//! Kinds of values, and kinds of what is carried.

use sj_lang::{Kind, Scalar};

/// Whether values of that kind are carried.
pub(crate) fn carries(carried: &Kind, kind: Scalar) -> bool {
    match (carried, kind) {
        (Kind::Int, Scalar::Int) => true,
        (Kind::Boolean, Scalar::Boolean) => true,
        (Kind::Text, Scalar::Text) => true,
        _ => false,
    }
}
