//! What a plan is made by, beside the capture. A further word on which the plan depends is a field of `Rules`.

ghost use Rattle.std.specs.Prelude.{◌≡◌};
ghost use Rattle.conn_classifier.specs.Rules.{is_served, usual, usual_ports};

use sq_base::{DISCARD_PORT, ECHO_PORT};

/// The port of each service of a plan, over TCP. Two services may have one port: the first of them here serves it.
#[derive(Clone, Copy, Debug, PartialEq, Eq)]
pub struct Ports {
    /// What is received comes back (RFC 862).
    pub echo: u16,
    /// What is received is thrown away (RFC 863).
    pub discard: u16,
}

/// What decides which segments of a capture a plan serves.
#[derive(Clone, Copy, Debug, PartialEq, Eq)]
pub struct Rules {
    /// Whether a record whose checksums are wrong counts as `badsum`, and isn't served.
    pub verify: bool,
    /// The ports that are served.
    pub ports: Ports,
}

impl Ports {
    /// The well-known ports: 7 for echo, 9 for discard.
    pub fn usual() -> Ports
        ensures { result ≡ usual_ports }
    {
        Ports {
            echo: ECHO_PORT,
            discard: DISCARD_PORT,
        }
    }

    /// Whether a service has this port.
    pub fn is_served(self, port: u16) -> bool
        ensures { result ≡ is_served self port }
    {
        port == self.echo || port == self.discard
    }
}

impl Rules {
    /// The rules with the well-known ports.
    pub fn usual(verify: bool) -> Rules
        ensures { result ≡ usual verify }
    {
        Rules {
            verify,
            ports: Ports::usual(),
        }
    }
}
