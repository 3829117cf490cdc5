ghost use Rattle.std.specs.Prelude.{◌≡◌, ◌<◌, Some, length};
ghost use Rattle.lagsystem.specs.Calls.{SetsPortEnabled, PortAtChangesBy, choice_with_link};

use crate::system_ports::SystemPort;
use lagtypes::Choice;

/// Selected of a port whose link is set: with a limit of links, UNSELECTED if the link is down; else it stays.
pub(crate) fn choice_with_link(max_links: Option<u16>, up: bool, choice: Choice) -> Choice
    ensures { result ≡ choice_with_link max_links up choice }
{
    match max_links {
        Some(_) if !up => Choice::Unselected,
        _ => choice,
    }
}

/// Sets whether the link of the port at this index is up.
pub(crate) fn set_link_at(
    system_ports: &mut [SystemPort],
    place: usize,
    max_links: Option<u16>,
    up: bool,
)
    requires { place < length system_ports.old }
    ensures { PortAtChangesBy (SetsPortEnabled max_links up) (Some place) system_ports.old system_ports.new }
{
    let system_port = &mut system_ports[place];
    let choice = choice_with_link(max_links, up, system_port.port.choice());
    system_port.port.select(choice);
    system_port.port.set_link(up);
}
