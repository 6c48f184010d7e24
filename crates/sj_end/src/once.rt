//! No end can be doubled, nor what holds one: where one of these types is `Clone`, and so where it
//! is `Copy`, two impls conflict and the crate doesn't compile. A call that takes an end by value
//! thus leaves nothing of it to be used.
use crate::{Body, Closed, Deferred, End, Expected, Frame, Held, Parked, Post, Room, Signalled};

trait Once {}

impl<T: Clone> Once for T {}

impl Once for End {}

impl Once for Held {}

impl Once for Parked {}

impl Once for Room {}

impl Once for Signalled {}

impl Once for Closed {}

impl Once for Expected {}

impl Once for Deferred {}

impl Once for Body {}

impl Once for Frame {}

impl Once for Post {}
