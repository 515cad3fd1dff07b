//! Which service each connection of a plan has.

ghost use Rattle.std.specs.Prelude.{◌≡◌, ◌<◌, true, length};
ghost use Rattle.conn_classifier.specs.Rules.{is_served};
ghost use Rattle.conn_blocks.specs.Services.{service_at, service_in};

use conn_classifier::{PlanView, Ports};
use echo_services::Service;

/// The service of a port that is served.
fn service_at(ports: Ports, port: u16) -> Service
    requires { is_served ports port ≡ true }
    ensures { result ≡ service_at ports port }
{
    if port == ports.echo {
        Service::Echo
    } else {
        Service::Discard
    }
}

/// The service of connection `c`, by the ports of the plan.
pub fn service_in(plan: &PlanView<'_>, c: u32) -> Service
    requires { c < length plan.now.tuples }
    ensures { result ≡ service_in plan.now c }
{
    service_at(plan.ports(), plan.tuple(c).server_port)
}
