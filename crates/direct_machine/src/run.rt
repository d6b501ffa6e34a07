// A machine at work: its parts, the calls so far, and the tick.
ghost use Rattle.std.specs.Prelude.{◌≡◌, ◌≤◌, All, map};

use crate::wants::first_wanting;
use cos_api::{Bus, Call, Calls, Device, Master, plain, serve};
use cos_base::NoMemory;

/// In which order the wants of a boundary are served.
#[derive(Clone, Copy)]
pub enum WantOrder {
    /// The earliest due first, and the least port among equals.
    ByDue,
    /// All of one port, then those of the next.
    ByPort,
}

/// A machine at work.
#[derive(Drop)]
pub struct Run<M: Master, D: Device> {
    pub master: M,
    pub devices: Vec<D>,
    pub calls: Calls,
    pub tick: u64,
}

/// Brings every device to the tick.
fn advance_all<D: Device>(devices: &mut [D], tick: u64)
    requires { All (λ s. D.model.seen s ≤ tick) devices.old }
    ensures { devices.new ≡ map (λ s. D.model.advance s tick) devices.old }
{
    'devices: for device in devices.iter_mut() {
        device.advance(tick);
    }
}

impl<M: Master, D: Device> Run<M, D> {
    ghost use Rattle.std.specs.Prelude.{◌≡◌, ◌+◌, ◌^◌, ◌<◌, ◌≤◌, None, Some, IfOk, OnOk, length, slice_get};
    ghost use Rattle.cosim_model.specs.Direct.{unit, access_device, advance_device, boundary, boundary_by_port};
    ghost use Rattle.direct_machine.specs.Runs.{Leads, IsReady, IsIssued, Serves, ServesFirst};
    ghost use Rattle.direct_machine.specs.Orders.{boundary_in};
    ghost use Rattle.direct_machine.specs.Quanta.{IsNext, Meets};

    /// One unit: a local one, or an access of a device.
    pub fn unit(&mut self) -> Result<(), NoMemory>
        requires ready { IsReady M.model D.model self.old }
        requires runs { M.model.stopped self.old.master ≡ None }
        requires small { self.old.tick + 1 < 2 ^ 64 }
        ensures leads { OnOk result (Leads (unit M.model D.model) self.old self.new) }
        ensures ready { OnOk result (IsReady M.model D.model self.new) }
        ensures tick { OnOk result (self.new.tick ≡ self.old.tick + 1) }
    {
        match self.master.issue() {
            Ok(None) => {
                self.tick += 1;
                Ok(())
            }
            Ok(Some(bus)) => self.access(bus),
            Err(NoMemory) => Err(NoMemory),
        }
    }

    /// The unit of an access that the master issued.
    fn access(&mut self, bus: Bus) -> Result<(), NoMemory>
        requires issued { IsIssued M.model D.model self.old bus }
        requires small { self.old.tick + 1 < 2 ^ 64 }
        ensures leads { OnOk result (Leads (λ plan r. access_device M.model D.model plan r r.master bus (slice_get r.devices bus.port)) self.old self.new) }
        ensures ready { OnOk result (IsReady M.model D.model self.new) }
        ensures tick { OnOk result (self.new.tick ≡ self.old.tick + 1) }
    {
        let device = &mut self.devices[bus.port as usize];
        let answer = plain(bus.access, device.access(self.tick, bus.access)?);
        self.master.finish(answer);
        self.calls.push(Call::Access {
            tick: self.tick,
            port: bus.port,
            access: bus.access,
            answer,
        })?;
        self.tick += 1;
        Ok(())
    }

    /// Serves the want of a port, where there is one. Was there one?
    fn serve(&mut self, port: usize) -> Result<bool, NoMemory>
        requires ready { IsReady M.model D.model self.old }
        requires there { port < length self.old.devices.items }
        ensures serves { IfOk result (Serves M.model D.model port self.old self.new) }
        ensures ready { OnOk result (IsReady M.model D.model self.new) }
    {
        let want = match self.devices[port].want() {
            Some(want) => want,
            None => return Ok(false),
        };
        let reply = serve(&mut self.master, want)?;
        let tick = self.tick;
        let device = &mut self.devices[port];
        let due = device.due();
        device.feed(reply);
        match self.calls.push(Call::Served {
            tick,
            port: port as u32,
            due,
            want,
            reply,
        }) {
            Ok(()) => Ok(true),
            Err(NoMemory) => Err(NoMemory),
        }
    }

    /// Serves the want that comes first, where there is one. Was there one?
    fn serve_first(&mut self) -> Result<bool, NoMemory>
        requires ready { IsReady M.model D.model self.old }
        ensures serves { IfOk result (ServesFirst M.model D.model self.old self.new) }
        ensures ready { OnOk result (IsReady M.model D.model self.new) }
    {
        match first_wanting(self.devices.as_slice()) {
            Some(port) => self.serve(port),
            None => Ok(false),
        }
    }

    /// Every device is brought to the tick, and then the wants are served, the earliest first.
    fn boundary_by_due(&mut self) -> Result<(), NoMemory>
        requires ready { IsReady M.model D.model self.old }
        ensures leads { OnOk result (Leads (boundary M.model D.model) self.old self.new) }
        ensures ready { OnOk result (IsReady M.model D.model self.new) }
        ensures tick { OnOk result (self.new.tick ≡ self.old.tick) }
        ensures stopped { OnOk result (M.model.stopped self.new.master ≡ M.model.stopped self.old.master) }
    {
        advance_all(&mut self.devices, self.tick);
        'wants: loop {
            match self.serve_first() {
                Ok(true) => {}
                Ok(false) => return Ok(()),
                Err(NoMemory) => return Err(NoMemory),
            }
        }
    }

    /// The device of a port is brought to the tick, and then its wants are served.
    fn settle(&mut self, port: usize) -> Result<(), NoMemory>
        requires ready { IsReady M.model D.model self.old }
        requires there { port < length self.old.devices.items }
        ensures leads { OnOk result (Leads (λ plan r. advance_device M.model D.model plan r port (slice_get r.devices port)) self.old self.new) }
        ensures ready { OnOk result (IsReady M.model D.model self.new) }
        ensures tick { OnOk result (self.new.tick ≡ self.old.tick) }
        ensures stopped { OnOk result (M.model.stopped self.new.master ≡ M.model.stopped self.old.master) }
        ensures ports { OnOk result (length self.new.devices.items ≡ length self.old.devices.items) }
    {
        let device = &mut self.devices[port];
        device.advance(self.tick);
        'wants: loop {
            match self.serve(port) {
                Ok(true) => {}
                Ok(false) => return Ok(()),
                Err(NoMemory) => return Err(NoMemory),
            }
        }
    }

    /// One port after another is brought to the tick, and its wants are served before the next port's turn.
    fn boundary_by_port(&mut self) -> Result<(), NoMemory>
        requires ready { IsReady M.model D.model self.old }
        ensures leads { OnOk result (Leads (boundary_by_port M.model D.model) self.old self.new) }
        ensures ready { OnOk result (IsReady M.model D.model self.new) }
        ensures tick { OnOk result (self.new.tick ≡ self.old.tick) }
        ensures stopped { OnOk result (M.model.stopped self.new.master ≡ M.model.stopped self.old.master) }
    {
        'ports: for port in 0..self.devices.len() {
            self.settle(port)?;
        }
        Ok(())
    }

    /// A boundary: devices advance and wants are served.
    pub fn boundary(&mut self, order: WantOrder) -> Result<(), NoMemory>
        requires ready { IsReady M.model D.model self.old }
        ensures leads { OnOk result (Leads (boundary_in M.model D.model order) self.old self.new) }
        ensures ready { OnOk result (IsReady M.model D.model self.new) }
        ensures tick { OnOk result (self.new.tick ≡ self.old.tick) }
        ensures stopped { OnOk result (M.model.stopped self.new.master ≡ M.model.stopped self.old.master) }
    {
        match order {
            WantOrder::ByDue => self.boundary_by_due(),
            WantOrder::ByPort => self.boundary_by_port(),
        }
    }

    /// The boundary of the next multiple of the quantum, where the run has come there, and the multiple after it.
    pub fn meet_quantum(
        &mut self,
        next: u64,
        quantum: u64,
        order: WantOrder,
    ) -> Result<u64, NoMemory>
        requires ready { IsReady M.model D.model self.old }
        requires next { IsNext quantum self.old.tick next }
        requires small { self.old.tick < 2 ^ 32 }
        ensures { IfOk result (Meets M.model D.model order quantum self.old self.new) }
    {
        if self.tick != next {
            return Ok(next);
        }
        match self.boundary(order) {
            Ok(()) => Ok(next + quantum),
            Err(NoMemory) => Err(NoMemory),
        }
    }
}
