//! The word that names the ports of the services.

ghost use Rattle.std.specs.Prelude.{◌≡◌, map};
ghost use Rattle.std.specs.String.{string_bytes};
ghost use Rattle.live_run.specs.PortWords.{gets_port, has_port, named_by, port_named, ports_in, ports_named};

use live_server::{NO_PORTS, PLAIN_PORTS, Ports};
use shell::{number_between, split_at};

/// The ports that the first word names, as `echo=7,daytime=13`: the services that it leaves out aren't had. Without it echo is at 7
/// and discard at 9.
pub fn ports_in(words: &[String]) -> Option<Ports>
    ensures { result ≡ ports_in (map (λ s. string_bytes s) words.now) }
{
    match words {
        [] => Some(PLAIN_PORTS),
        [word, ..] => ports_named(4, NO_PORTS, word.as_str()),
    }
}

/// One service, or at most so many more with commas between.
#[tactic(auto, using(crate::proofs::PortLemmas::last_named, crate::proofs::PortLemmas::next_named))]
fn ports_named(more: usize, ports: Ports, text: &str) -> Option<Ports>
    ensures { result ≡ ports_named more ports text.now }
{
    if more == 0 {
        return port_named(ports, text);
    }
    match split_at(text, ',') {
        None => port_named(ports, text),
        Some((first, rest)) => ports_named(more - 1, port_named(ports, first)?, rest),
    }
}

/// `NAME=PORT`. No port may stand twice, and no name.
#[tactic(auto, unfolding(crate::specs::PortWords::port_named))]
fn port_named(ports: Ports, text: &str) -> Option<Ports>
    ensures { result ≡ port_named ports text.now }
{
    let (name, port) = split_at(text, '=')?;
    named_by(ports, name, number_between(port, 1, 65_535)? as u16)
}

#[tactic(auto, unfolding(crate::specs::PortWords::named_by))]
fn named_by(ports: Ports, name: &str, port: u16) -> Option<Ports>
    ensures { result ≡ named_by ports name.now port }
{
    if has_port(ports, port) {
        None
    } else {
        gets_port(ports, name, port)
    }
}

fn has_port(ports: Ports, port: u16) -> bool
    ensures { result ≡ has_port ports port }
{
    port == ports.echo
        || port == ports.discard
        || port == ports.daytime
        || port == ports.chargen
        || port == ports.web
}

/// The service of this name gets a port, where it has none.
#[tactic(auto, unfolding(crate::specs::PortWords::gets_port))]
fn gets_port(ports: Ports, name: &str, port: u16) -> Option<Ports>
    ensures { result ≡ gets_port ports name.now port }
{
    if name == "echo" && ports.echo == 0 {
        Some(Ports {
            echo: port,
            ..ports
        })
    } else if name == "discard" && ports.discard == 0 {
        Some(Ports {
            discard: port,
            ..ports
        })
    } else if name == "daytime" && ports.daytime == 0 {
        Some(Ports {
            daytime: port,
            ..ports
        })
    } else if name == "chargen" && ports.chargen == 0 {
        Some(Ports {
            chargen: port,
            ..ports
        })
    } else if name == "web" && ports.web == 0 {
        Some(Ports { web: port, ..ports })
    } else {
        None
    }
}
