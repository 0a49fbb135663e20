//! Orders, and those of a script.

use crate::error::TrialError;
use crate::settings::number;
use gm_front::Input;
use std::alloc::Global;

/// An order of a script, for a front.
#[derive(Drop)]
pub enum Order<'a> {
    Open(&'a str),
    Piece(u32, Vec<u8>),
    Close(u32),
    Tick(u64),
}

impl Order<'_> {
    /// The order as an input of a front.
    pub fn input(&self) -> Input<'_> {
        match self {
            Order::Open(addr) => Input::Open(addr.as_bytes()),
            Order::Piece(slot, bytes) => Input::Piece(*slot, bytes),
            Order::Close(slot) => Input::Close(*slot),
            Order::Tick(now) => Input::Tick(*now),
        }
    }
}

/// The order in a line, if it has one.
fn order_of(alloc: Global, line: &str) -> Option<Order<'_>> {
    let (verb, rest) = line.split_once(' ')?;
    match (verb, rest.split_once(' ')) {
        ("open", None) if !rest.is_empty() => Some(Order::Open(rest)),
        ("bytes", Some((slot, digits))) => {
            Some(Order::Piece(number(slot).ok()?, hex::decode(alloc, digits).ok()?))
        }
        ("close", None) => Some(Order::Close(number(rest).ok()?)),
        ("tick", None) => Some(Order::Tick(number(rest).ok()?)),
        _ => None,
    }
}

/// The orders in the lines of a script. Lines without an order are passed over.
pub fn orders_of(alloc: Global, script: &str) -> Result<Vec<Order<'_>>, TrialError> {
    let mut orders = Vec::new(alloc);
    for line in script.split('\n') {
        if let Some(order) = order_of(alloc, line) {
            orders.push(order)?;
        }
    }
    Ok(orders)
}
