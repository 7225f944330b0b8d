// The nets of a design, in the order of their numbers, with no rule of their own.
use crate::parts::Net;

#[derive(Drop)]
pub struct NetTable {
    pub items: Vec<Net>,
}
