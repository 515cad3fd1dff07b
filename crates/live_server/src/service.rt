//! The service behind a connection of the server, with what it keeps.

use crate::daytime::daytime_text;
use crate::site::Site;
use echo_services::{Chargen, Daytime, Discard, Echo, PortService};
use http_pages::Answer;
use page_service::{Behind, Phase};
use std::alloc::{AllocError, Global};
use tcb_machine::Tcb;

/// The service behind a connection.
#[derive(Drop)]
pub enum LiveService {
    /// What was received comes back (RFC 862).
    Echo,
    /// What was received is thrown away (RFC 863).
    Discard,
    /// The time at which the connection began, in microseconds since 1970, is told as a line in UTC, and then our FIN is sent (RFC 867).
    Daytime {
        begun: u64,
    },
    /// A pattern is sent, of which so many bytes were given (RFC 864).
    Chargen {
        given: u16,
    },
    /// Requests for pages are answered (RFC 9112).
    Web {
        /// How far it has come.
        phase: Phase<Answer>,
        /// The pages.
        site: Site,
    },
}

impl PortService for LiveService {
    ghost use Rattle.live_server.specs.Services.{after_pump, pump_of};

    ghost pumps = { pump_of };

    ghost after = { after_pump };

    #[tactic(auto, unfolding(crate::specs::Services::pump_of, crate::specs::Services::after_pump))]
    fn pump(&mut self, tcb: &mut Tcb, alloc: Global) -> Result<(), AllocError> {
        match self {
            LiveService::Echo => {
                let mut echo = Echo;
                echo.pump(tcb, alloc)
            }
            LiveService::Discard => {
                let mut discard = Discard;
                discard.pump(tcb, alloc)
            }
            LiveService::Daytime { begun } => {
                let line = daytime_text(alloc, *begun)?;
                let text = Vec::from_slice(alloc, line.as_bytes())?;
                let mut daytime = Daytime { text };
                daytime.pump(tcb, alloc)
            }
            LiveService::Chargen { given } => {
                let mut chargen = Chargen { given: *given };
                chargen.pump(tcb, alloc)?;
                *given = chargen.given;
                Ok(())
            }
            LiveService::Web { phase, site } => {
                let mut behind = Behind {
                    phase: *phase,
                    answerer: site.pages(),
                };
                behind.pump(tcb, alloc)?;
                *phase = behind.phase;
                Ok(())
            }
        }
    }
}
