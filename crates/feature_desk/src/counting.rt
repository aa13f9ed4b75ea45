//! A pass of a desk as a counter.
ghost use Rattle.feature_desk.specs.Sitters.{account_of, IsOf};

use crate::desk::{Desk, answers, standing};
use crate::passes::{Chair, DeskPass};
use counter::{Asked, Counter, Glance};
use lic_types::Client;
use options_machine::{Kind, Request};
use std::sync::Wait;

impl Counter for DeskPass {
    type Desk = Desk;

    ghost is_of = { IsOf };

    ghost account = { account_of };

    fn ask<R: Wait>(
        &mut self,
        rt: &R,
        desk: &Desk,
        kind: Kind,
        client: &Client,
        moment: u64,
    ) -> Asked {
        let request = Request {
            party: self.ticket.number(),
            client: *client,
            kind,
        };
        let held = self.chair.is_hold();
        let asked = desk.enter(rt, &mut self.ticket, &request, moment, held);
        self.queued = standing(answers(&kind), asked.reply.is_of_queueing(), self.queued);
        desk.reseat(rt, &mut self.chair, &asked);
        asked
    }

    fn glance(&mut self, _desk: &Desk) -> Glance {
        self.ticket.glance()
    }

    fn board(&self) -> u64 {
        self.ticket.board()
    }

    fn party(&self) -> u32 {
        self.ticket.number()
    }

    fn holding(&self) -> bool {
        self.chair.is_hold()
    }

    fn queued(&self) -> bool {
        self.queued
    }

    fn seat(&self) -> Option<u32> {
        match &self.chair {
            Chair::Hold(hold) => Some(hold.seat()),
            _ => None,
        }
    }
}
