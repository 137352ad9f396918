ghost use Rattle.std.specs.Prelude.{◌≡◌, map, IfOk};
ghost use Rattle.kom_env.specs.Outside.{service_of};

use kom_lang::PortDecl;
use std::alloc::{AllocError, Global};

/// What the environment does for a port of the root: it serves required ports of the built-in
/// types Timer and Network, and no other.
#[derive(Clone, Copy, Debug, PartialEq, Eq)]
pub enum Service {
    Timer,
    Network,
    Nothing,
}

/// What the environment does for a port of the root.
pub fn service_for(port: &PortDecl) -> Service
    ensures { result ≡ service_of port.now }
{
    if port.provided {
        return Service::Nothing;
    }
    match port.port {
        0 => Service::Timer,
        1 => Service::Network,
        _ => Service::Nothing,
    }
}

/// What the environment does for each of some ports.
pub fn services_for(alloc: Global, ports: &[PortDecl]) -> Result<Vec<Service>, AllocError>
    ensures { IfOk result (λ v. v.items ≡ map service_of ports.now) }
{
    let mut services = Vec::new(alloc);
    for port in ports {
        services.push(service_for(port))?;
    }
    Ok(services)
}
