//! The deliveries of each link.
use crate::fault::Cause;
use amqp_frames::{Deliveries, Joined};
use fe2o3_amqp_types::performatives::Transfer;
use std::alloc::Global;
use std::collections::BTreeMap;

/// The most bytes of the message of a delivery.
const MAX_MESSAGE_SIZE: usize = 1 << 26;

/// A link of one direction: its channel, and its handle.
pub(crate) type Link = (u16, u32);

/// The links on which a delivery is open.
#[derive(Drop)]
pub(crate) struct Links {
    open: BTreeMap<Link, Deliveries>,
}

impl Links {
    pub(crate) fn new(alloc: Global) -> Links {
        Links {
            open: BTreeMap::new(alloc),
        }
    }

    /// Whether more transfers of a delivery are awaited on this link.
    pub(crate) fn is_open(&self, link: Link) -> bool {
        self.open.contains_key(&link)
    }

    /// Joins a transfer of this link to its delivery.
    pub(crate) fn join(
        &mut self,
        link: Link,
        transfer: Transfer,
        payload: &[u8],
        alloc: Global,
    ) -> Result<Joined, Cause> {
        let mut deliveries = match self.open.remove(&link) {
            Some(deliveries) => deliveries,
            None => Deliveries::new(MAX_MESSAGE_SIZE),
        };
        let joined = deliveries.join(transfer, payload, alloc);
        self.keep(link, deliveries)?;
        Ok(joined?)
    }

    // Keeps the deliveries of a link if one is open.
    fn keep(&mut self, link: Link, deliveries: Deliveries) -> Result<(), Cause> {
        if deliveries.unfinished.is_none() {
            return Ok(());
        }
        match self.open.insert(link, deliveries) {
            Ok(_) => Ok(()),
            Err(_) => Err(Cause::Memory),
        }
    }
}
