ghost use Rattle.std.specs.Prelude.{◌≡◌, ◌<◌, List, [], length, true, IfOk, IfErr, OnOk, OnErr};
ghost use Rattle.asset_monitor.specs.declared.service.Service.{Service as TheService};
ghost use Rattle.asset_monitor.specs.Services.{are_services, is_service, services_per_host, with_service};
ghost use Rattle.asset_monitor.specs.Places.{IsAt, IsGap};

use crate::service::Service;
use basics::NoMemory;
use std::alloc::Global;
use std::marker::Model;

/// The most services that are kept of a host.
pub const SERVICES_PER_HOST: usize = 64;

/// The services of a host, by protocol and port, which contracts see as their list.
#[derive(Debug, Drop)]
pub struct Services {
    list: Vec<Service>,
}

impl Model for Services {
    ghost Value = { List TheService };

    ghost view = { λ s. s.list.items };

    ghost invariant = { λ s. are_services s.list.items ≡ true };
}

impl Services {
    /// No services. This takes no memory.
    pub fn open(alloc: Global) -> Self
        ensures { result ≡ [] }
    {
        Services {
            list: Vec::new(alloc),
        }
    }

    /// The services of a vector, without a copy.
    pub fn from_vec(list: Vec<Service>) -> Self
        requires { are_services list.items ≡ true }
        ensures { result ≡ list.items }
    {
        Services { list }
    }

    /// The services, as a slice.
    pub fn items(&self) -> &[Service]
        ensures value { result.now ≡ self.now }
        ensures services { are_services self.now ≡ true }
    {
        self.list.as_slice()
    }

    /// The allocator of the services.
    pub(crate) fn allocator(&self) -> Global {
        *self.list.allocator()
    }

    /// The same services again, on the same allocator.
    pub fn copy(&self) -> Result<Self, NoMemory>
        ensures { IfOk result (λ other. other ≡ self.now) }
    {
        let list = Vec::from_slice(*self.list.allocator(), self.list.as_slice())?;
        Ok(Services { list })
    }

    /// The place of the service with the protocol and the port of this one, or that where it would stand.
    pub fn place_of(&self, service: &Service) -> Result<usize, usize>
        ensures listed { IfOk result (IsAt self.now service.now) }
        ensures absent { IfErr result (IsGap self.now service.now) }
    {
        self.list.binary_search_by(|other| other.end_cmp(service))
    }

    /// Lists a service at its place.
    pub fn insert(&mut self, place: usize, service: Service) -> Result<(), NoMemory>
        requires gap { IsGap self.old service place }
        requires valid { is_service service ≡ true }
        requires room { length self.old < services_per_host }
        ensures ok { OnOk result (self.new ≡ with_service self.old service) }
        ensures err { OnErr result (self.new ≡ self.old) }
    {
        self.list.insert(place, service)?;
        Ok(())
    }

    /// Puts a service in the place of the one with its protocol and port.
    pub fn replace(&mut self, place: usize, service: Service)
        requires listed { IsAt self.old service place }
        requires valid { is_service service ≡ true }
        ensures { self.new ≡ with_service self.old service }
    {
        self.list[place] = service;
    }
}
