//! What an end knows. These types are for proofs alone, and no value of them is made.

use crate::shown::{LiveView, ShownCommand};
use std::collections::LinkedList;

/// What both copies have in common: the banks at opening, and the commands that were shown since.
pub struct Trail {
    pub opening: LiveView,
    pub shown: LinkedList<ShownCommand>,
}

/// The banks at opening, if they are known, and the lists of shown commands that the end saw or was told of.
pub struct Knowledge {
    pub opening: Option<LiveView>,
    pub lists: LinkedList<LinkedList<ShownCommand>>,
}
