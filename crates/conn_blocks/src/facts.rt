//! Types for contracts alone, of which no program makes a value, and what contracts know by them.

ghost use Rattle.std.specs.Prelude.{◌≡◌};
ghost use Rattle.conn_blocks.specs.ServeOrder.{ConnectionOf};

use crate::calls::Calls;
use conn_classifier::PlanView;
use perimeter_core::Known;
use std::convert::Infallible;
use std::marker::Model;

/// A connection of a plan, with the calls of the threads.
#[derive(Drop)]
pub struct Connection {
    never: Infallible,
}

impl Model for Connection {
    ghost use Rattle.conn_blocks.specs.ServeOrder.{ConnectionOf};

    ghost Value = { ConnectionOf };

    ghost view = { λ x. elim x.never [ ] };
}

/// A plan with the calls of the threads: what all blocks of a run have in common.
#[derive(Drop)]
pub struct Origin {
    never: Infallible,
}

impl Model for Origin {
    ghost use Rattle.conn_blocks.specs.ServeOrder.{OriginOf};

    ghost Value = { OriginOf };

    ghost view = { λ x. elim x.never [ ] };
}

/// Whose block it is, for contracts.
pub(crate) fn connection_of(plan: &PlanView<'_>, calls: &Calls, c: u32) -> Known<Connection>
    ensures { result.value ≡ record { plan = plan.now; calls = calls.now; c = c } }
{
    connection_as(plan, calls, c)
}

/// What the connection is made of is passed beside it, since a pick sees the call's arguments alone.
fn connection_as(_plan: &PlanView<'_>, _calls: &Calls, _c: u32) -> Known<Connection>
    ghost picked: { ConnectionOf }
    ensures { result.value ≡ picked }
{
    Known::pick()
}
