//! At which ports a server has which service.

ghost use Rattle.std.specs.Prelude.{◌≡◌, IfOk};
ghost use Rattle.live_server.specs.Services.{is_served_at, pages_of, service_at};

use crate::service::LiveService;
use crate::setting::Setting;
use crate::site::Site;
use page_service::Phase;
use sq_base::{DISCARD_PORT, ECHO_PORT};
use std::alloc::AllocError;

/// The port of each service. Port 0 is none: the service isn't had.
#[derive(Clone, Copy, Debug, PartialEq, Eq)]
pub struct Ports {
    /// Echo (RFC 862).
    pub echo: u16,
    /// Discard (RFC 863).
    pub discard: u16,
    /// Daytime (RFC 867).
    pub daytime: u16,
    /// The character generator (RFC 864).
    pub chargen: u16,
    /// Pages over HTTP (RFC 9112).
    pub web: u16,
}

/// Echo at port 7 and discard at port 9, and nothing else.
pub const PLAIN_PORTS: Ports = Ports {
    echo: ECHO_PORT,
    discard: DISCARD_PORT,
    daytime: 0,
    chargen: 0,
    web: 0,
};

/// No service has a port.
pub const NO_PORTS: Ports = Ports {
    echo: 0,
    discard: 0,
    daytime: 0,
    chargen: 0,
    web: 0,
};

/// Whether a service has this port.
pub(crate) fn is_served_at(ports: &Ports, port: u16) -> bool
    ensures { result ≡ is_served_at ports.now port }
{
    port != 0
        && (port == ports.echo
            || port == ports.discard
            || port == ports.daytime
            || port == ports.chargen
            || port == ports.web)
}

/// The service of a port that is served, for a connection that begins at this time. Where no pages are given, the port of pages has
/// discard. An error says that memory was missing.
pub fn service_at(setting: &Setting, now: u64, port: u16) -> Result<LiveService, AllocError>
    ensures { IfOk result (λ s. s ≡ service_at setting.now now port) }
{
    let ports = &setting.ports;
    if port == ports.echo {
        Ok(LiveService::Echo)
    } else if port == ports.daytime {
        Ok(LiveService::Daytime { begun: now })
    } else if port == ports.chargen {
        Ok(LiveService::Chargen { given: 0 })
    } else if port == ports.web {
        pages_of(&setting.site)
    } else {
        Ok(LiveService::Discard)
    }
}

/// Pages, where there are any.
fn pages_of(site: &Option<Site>) -> Result<LiveService, AllocError>
    ensures { IfOk result (λ s. s ≡ pages_of site.now) }
{
    match site {
        Some(site) => Ok(LiveService::Web {
            phase: Phase::Reads,
            site: site.share()?,
        }),
        None => Ok(LiveService::Discard),
    }
}
