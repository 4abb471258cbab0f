//! Which way is nearest, and which may be the successor. The ways are the ports, and after them the
//! attachment, where there is one.

ghost use Rattle.std.specs.Prelude.{◌≡◌, ◌<◌, ◌≤◌, ◌++◌, length, min, slice_get, count_by, IfSome};
ghost use Rattle.std.specs.List.{list_any, position_from};
ghost use Rattle.network_model.specs.Machine as dual;
ghost use Rattle.network_model.specs.Network.{most_ports};
ghost use Rattle.dual_machine.specs.Event as events;

use network_model::{Cost, Distance, Neighbour};

// The distance by way of a neighbour.
fn distance(neighbour: &Neighbour) -> Distance
    ensures { result ≡ dual.distance neighbour.now }
{
    if neighbour.up {
        neighbour.reported.plus(neighbour.cost)
    } else {
        Distance::INF
    }
}

// The lesser of two distances.
pub(crate) fn nearer(a: Distance, b: Distance) -> Distance
    ensures { result ≡ min a b }
{
    a.min(b)
}

// The attachment, as a neighbour that is up and reported 0.
fn at_home(cost: Cost) -> Neighbour
    ensures { result ≡ dual.at_home cost }
{
    Neighbour {
        up: true,
        cost,
        reported: Distance::ZERO,
    }
}

fn way(ports: &[Neighbour], attachment: &Option<Cost>, number: u8) -> Option<Neighbour>
    ensures { result ≡ slice_get (ports.now ++ dual.home_ways attachment.now) number }
{
    let number = usize::from(number);
    if number < ports.len() {
        return Some(ports[number]);
    }
    match *attachment {
        Some(cost) if number == ports.len() => Some(at_home(cost)),
        _ => None,
    }
}

// The least distance by way of any port.
#[tactic(auto, using(network_model::proofs::MachineLaws::least_bounded))]
fn least_of_ports(ports: &[Neighbour]) -> Distance
    ensures { result ≡ dual.least ports.now }
{
    let mut best = Distance::INF;
    for neighbour in ports {
        best = nearer(best, distance(neighbour));
    }
    best
}

// The least distance by any way.
pub(crate) fn least(ports: &[Neighbour], attachment: &Option<Cost>) -> Distance
    ensures { result ≡ dual.least (ports.now ++ dual.home_ways attachment.now) }
{
    let least = least_of_ports(ports);
    match *attachment {
        Some(cost) => nearer(least, distance(&at_home(cost))),
        None => least,
    }
}

// Whether a neighbour at the least distance may be taken.
fn is_feasible(fd: Distance, least: Distance, neighbour: &Neighbour) -> bool
    ensures { result ≡ dual.is_feasible fd least neighbour.now }
{
    neighbour.up && distance(neighbour) == least && neighbour.reported < fd
}

fn is_home_feasible(fd: Distance, least: Distance, attachment: &Option<Cost>) -> bool
    ensures { result ≡ list_any (dual.is_feasible fd least) (dual.home_ways attachment.now) }
{
    match *attachment {
        Some(cost) => is_feasible(fd, least, &at_home(cost)),
        None => false,
    }
}

fn has_feasible_port(fd: Distance, least: Distance, ports: &[Neighbour]) -> bool
    ensures { result ≡ list_any (dual.is_feasible fd least) ports.now }
{
    ports.iter().any(|n| is_feasible(fd, least, n))
}

fn first_feasible_port(fd: Distance, least: Distance, ports: &[Neighbour]) -> Option<usize>
    ensures value { result ≡ position_from (dual.is_feasible fd least) 0 ports.now }
    ensures below { IfSome result (λ q. q < length ports.now) }
{
    ports.iter().position(|n| is_feasible(fd, least, n))
}

// The lowest way that may be taken: the attachment only where no port may be.
fn first_feasible(
    fd: Distance,
    least: Distance,
    ports: &[Neighbour],
    attachment: &Option<Cost>,
) -> Option<usize>
    ensures value { result ≡ position_from (dual.is_feasible fd least) 0
        (ports.now ++ dual.home_ways attachment.now) }
    ensures below { IfSome result (λ q. q ≤ length ports.now) }
{
    match first_feasible_port(fd, least, ports) {
        Some(port) => Some(port),
        None if is_home_feasible(fd, least, attachment) => Some(ports.len()),
        None => None,
    }
}

fn is_feasible_at(
    fd: Distance,
    least: Distance,
    ports: &[Neighbour],
    attachment: &Option<Cost>,
    number: u8,
) -> bool
    requires { least ≡ dual.least (ports.now ++ dual.home_ways attachment.now) }
    ensures { result ≡ dual.is_feasible_at fd (ports.now ++ dual.home_ways attachment.now) number }
{
    match way(ports, attachment, number) {
        Some(neighbour) => is_feasible(fd, least, &neighbour),
        None => false,
    }
}

// The source node condition.
pub(crate) fn condition_holds(fd: Distance, ports: &[Neighbour], attachment: &Option<Cost>) -> bool
    ensures { result ≡ dual.condition_holds fd (ports.now ++ dual.home_ways attachment.now) }
{
    let least = least(ports, attachment);
    if least.is_infinite() {
        fd.is_infinite()
    } else {
        has_feasible_port(fd, least, ports) || is_home_feasible(fd, least, attachment)
    }
}

// The successor to take: the present one where it may be taken, else the lowest way that may.
pub(crate) fn chosen_successor(
    fd: Distance,
    ports: &[Neighbour],
    attachment: &Option<Cost>,
    successor: Option<u8>,
) -> Option<u8>
    requires { length ports.now ≤ most_ports }
    ensures { result ≡ dual.chosen_successor fd
        (ports.now ++ dual.home_ways attachment.now) successor }
{
    let least = least(ports, attachment);
    if least.is_infinite() {
        return None;
    }
    if let Some(number) = successor {
        if is_feasible_at(fd, least, ports, attachment, number) {
            return Some(number);
        }
    }
    first_feasible(fd, least, ports, attachment).map(|number| number as u8)
}

// The distance by way of the successor.
pub(crate) fn via_successor(
    ports: &[Neighbour],
    attachment: &Option<Cost>,
    successor: Option<u8>,
) -> Distance
    ensures value { result ≡ dual.via_successor
        (ports.now ++ dual.home_ways attachment.now) successor }
{
    let Some(number) = successor else {
        return Distance::INF;
    };
    match way(ports, attachment, number) {
        Some(neighbour) => distance(&neighbour),
        None => Distance::INF,
    }
}

// Whether any neighbour is up.
pub(crate) fn is_any_up(ports: &[Neighbour]) -> bool
    ensures { result ≡ list_any (λ n. n.up) ports.now }
{
    ports.iter().any(|n| n.up)
}

// How many neighbours are up.
pub(crate) fn up_count(ports: &[Neighbour]) -> usize
    ensures { result ≡ count_by (λ n. n.up) ports.now }
{
    ports.iter().filter(|n| n.up).count()
}

// Whether the neighbour at this port is up.
pub(crate) fn is_up_at(ports: &[Neighbour], port: u8) -> bool
    ensures { result ≡ events.is_neighbour_up ports.now port }
{
    match ports.get(port as usize) {
        Some(neighbour) => neighbour.up,
        None => false,
    }
}
