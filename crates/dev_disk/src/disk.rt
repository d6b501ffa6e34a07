// The disk.
use crate::engine::{chunk_at, place, take_in};
use crate::{Engine, Register};
use cos_api::{Access, Answer, Caps, Device, Reply, Want};
use cos_base::{NoMemory, Numbers, Octets};
use dev_line::{Request, Wire, given, refused};
use std::marker::Model;

/// A disk with the registers SECTOR, COUNT, ADDR, CONTROL, STATUS and SIZE. It moves sectors of 512 bytes in chunks of 64 bytes.
/// Its interrupt level is high where bit 2 of CONTROL is set, work is done and none runs.
#[derive(Drop)]
pub struct Disk {
    sector: u32,
    count: u32,
    address: u32,
    to_disk: bool,
    enabled: bool,
    done: bool,
    error: bool,
    engine: Engine,
    wire: Wire,
    sectors: Octets,
    bad: Numbers,
}

impl Model for Disk {
    ghost use Rattle.std.specs.Prelude.{◌≤◌, length};
    ghost use Rattle.dev_disk.specs.Works.{IsRunning};
    ghost use Rattle.dev_disk.specs.Disks.{DiskRegisters};

    ghost Value = { DiskRegisters };

    ghost view = { λ d. record {
      sector = d.sector;
      count = d.count;
      address = d.address;
      to_disk = d.to_disk;
      enabled = d.enabled;
      done = d.done;
      error = d.error;
      engine = d.engine;
      wire = d.wire;
      sectors = d.sectors.bytes;
      bad = d.bad;
    } };

    ghost invariant = { λ d. (length d.sectors.bytes ≤ 16777216)
        × IsRunning d.sector d.count d.engine d.sectors.bytes d.bad };
}

impl Disk {
    ghost use Rattle.std.specs.Prelude.{◌≡◌, ◌%◌, ◌≤◌, false, length};
    ghost use Rattle.dev_disk.specs.Works as works;
    ghost use Rattle.dev_disk.specs.Disks as disks;

    /// A disk at reset with the sectors of that image, 1 to 32,768 of 512 bytes, and the numbers of bad sectors. Its level goes to
    /// the line of that number.
    pub fn make(line: u32, image: Octets, bad: Numbers) -> Disk
        requires whole { length image.bytes % 512 ≡ 0 }
        requires some { 512 ≤ length image.bytes }
        requires most { length image.bytes ≤ 16777216 }
        ensures { result ≡ disks.fresh_disk line image.bytes bad }
    {
        Disk {
            sector: 0,
            count: 0,
            address: 0,
            to_disk: false,
            enabled: false,
            done: false,
            error: false,
            engine: Engine::Idle,
            wire: Wire::make(line),
            sectors: image,
            bad,
        }
    }

    /// The bytes of all sectors.
    pub fn sectors(&self) -> &[u8]
        ensures { result.now ≡ self.now.sectors }
    {
        self.sectors.as_slice()
    }

    fn is_bad(&self, sector: u32) -> bool
        ensures { result ≡ works.is_bad self.now.bad sector }
    {
        self.bad.as_slice().contains(&sector)
    }

    fn size(&self) -> u32
        ensures { result ≡ disks.size self.now.sectors }
    {
        (self.sectors.len() / 512) as u32
    }

    fn is_busy(&self) -> bool
        ensures { result ≡ disks.is_busy self.now.engine }
    {
        self.engine.is_busy()
    }

    fn level(&self) -> bool
        ensures { result ≡ disks.level self.now }
    {
        self.enabled && self.done && !self.engine.is_busy()
    }

    fn chunk_want(&self) -> Option<Want>
        ensures { result ≡ disks.chunk_want self.now self.now.engine }
    {
        match self.engine {
            Engine::Idle => None,
            Engine::Busy { after } => {
                let place = place(self.count, after);
                let addr = u64::from(self.address) + u64::from(place);
                if self.to_disk {
                    return Some(Want::Fetch { addr, size: 64 });
                }
                let at = 512 * self.sector as usize + place as usize;
                Some(Want::Store {
                    addr,
                    size: 64,
                    bytes: chunk_at(&self.sectors, at),
                    mask: u64::MAX,
                })
            }
        }
    }

    fn engine_left(&self) -> u32
        ensures { result ≡ disks.engine_left self.now.engine }
    {
        match self.engine {
            Engine::Idle => 0,
            Engine::Busy { after } => after + 2,
        }
    }

    fn read(&self, register: Register) -> Answer
        ensures { result ≡ disks.register_read self.now register }
    {
        match register {
            Register::Sector => given(u64::from(self.sector)),
            Register::Count => given(u64::from(self.count)),
            Register::Address => given(u64::from(self.address)),
            Register::Control => given(2 * u64::from(self.to_disk) + 4 * u64::from(self.enabled)),
            Register::Status => given(
                u64::from(self.engine.is_busy())
                    + 2 * u64::from(self.done)
                    + 4 * u64::from(self.error),
            ),
            Register::Size => given(u64::from(self.size())),
        }
    }

    fn write(&mut self, register: Register, value: u32) -> Answer
        ensures { disks.register_written self.old register value ≡ (self.new, result) }
    {
        match register {
            Register::Status => {
                self.done = false;
                self.error = false;
            }
            _ if self.engine.is_busy() => return refused(1),
            Register::Sector => self.sector = value,
            Register::Count => self.count = value,
            Register::Address => self.address = value,
            Register::Control => return self.control(
                value % 2 == 1,
                value / 2 % 2 == 1,
                value / 4 % 2 == 1,
            ),
            Register::Size => return refused(1),
        }
        given(0)
    }

    fn control(&mut self, starts: bool, to_disk: bool, enabled: bool) -> Answer
        requires { disks.is_busy self.old.engine ≡ false }
        ensures { disks.controlled self.old starts to_disk enabled ≡ (self.new, result) }
    {
        if starts {
            return self.start(to_disk, enabled);
        }
        self.to_disk = to_disk;
        self.enabled = enabled;
        given(0)
    }

    fn can_start(&self) -> bool
        ensures { result ≡ disks.can_start self.now }
    {
        1 <= self.count
            && self.count <= 128
            && u64::from(self.sector) + u64::from(self.count) <= u64::from(self.size())
    }

    fn start(&mut self, to_disk: bool, enabled: bool) -> Answer
        requires { disks.is_busy self.old.engine ≡ false }
        ensures { disks.started self.old to_disk enabled (disks.can_start self.old) ≡ (self.new, result) }
    {
        if !self.can_start() {
            return refused(1);
        }
        let bad = self.is_bad(self.sector);
        self.to_disk = to_disk;
        self.enabled = enabled;
        self.done = bad;
        self.error = bad;
        if !bad {
            self.engine = Engine::Busy {
                after: 8 * self.count - 1,
            };
        }
        given(0)
    }

    fn act(&mut self, request: Request<Register>) -> Answer
        ensures { disks.acted self.old request ≡ (self.new, result) }
    {
        match request {
            Request::Read(register) => self.read(register),
            Request::Write(register, value) => self.write(register, value),
            Request::Refused(code) => refused(code),
        }
    }

    fn settle(&mut self, wanted: bool)
        ensures { self.new ≡ disks.settled wanted self.old }
    {
        let level = self.level();
        let works = self.engine.is_busy();
        self.wire.apply(wanted, level, works);
    }

    fn end(&mut self, error: bool)
        ensures { self.new ≡ disks.ended self.old error }
    {
        self.engine = Engine::Idle;
        self.done = true;
        self.error = error;
        self.settle(false);
    }

    fn go_on(&mut self, after: u32)
        requires { works.IsChunk self.old.sector self.old.count after self.old.sectors }
        ensures { self.new ≡ disks.continued self.old after (works.is_bad self.old.bad (works.sector_at self.old.sector self.old.count after)) }
    {
        if self.is_bad(self.sector + place(self.count, after) / 512) {
            return self.end(true);
        }
        self.engine = Engine::Busy { after };
        self.wire.renew();
    }

    fn work(&mut self, code: u8, bytes: &[u8; 64])
        ensures { self.new ≡ disks.worked self.old self.old.engine code bytes.now }
    {
        match self.engine {
            Engine::Idle => {}
            Engine::Busy { after } => {
                if code != 0 {
                    return self.end(true);
                }
                let at = 512 * self.sector as usize + place(self.count, after) as usize;
                take_in(self.to_disk, &mut self.sectors, at, bytes);
                if after == 0 {
                    return self.end(false);
                }
                self.go_on(after - 1);
            }
        }
    }

    fn serve(&mut self, reply: &Reply)
        ensures fed { self.new ≡ disks.fed self.old reply.now self.old.wire.pending }
        ensures long { length reply.now.bytes ≡ 64 }
    {
        if !self.wire.is_pending() {
            return self.work(reply.code, &reply.bytes);
        }
        let level = self.level();
        let works = self.engine.is_busy();
        self.wire.answer(level, works);
    }
}

impl Device for Disk {
    ghost use Rattle.std.specs.Prelude.{◌≡◌, ◌≤◌, IfOk, IsOk, OnErr, IsSome};
    ghost use Rattle.dev_disk.specs.Disks.{disk_model};
    ghost use Rattle.dev_disk.specs.KeepingLaws.{ChangesByFetch, KeepsBad};
    ghost use Rattle.dev_disk.specs.DiskLaws.{disk_lawful};

    ghost model = { disk_model };

    ghost lawful = { disk_lawful };

    /// Always answers Ok.
    fn access(&mut self, tick: u64, access: Access) -> Result<Answer, NoMemory>
        requires { disk_model.seen self.old ≤ tick }
        ensures ok { IfOk result (λ a. disk_model.access self.old tick access ≡ (self.new, a)) }
        ensures err { OnErr result (self.new ≡ self.old) }
        ensures always { IsOk result }
        ensures sectors { self.new.sectors ≡ self.old.sectors }
    {
        let wanted = self.is_busy();
        self.advance(tick);
        let answer = self.act(Request::of(&access, Register::at(access.addr)));
        self.settle(wanted);
        Ok(answer)
    }

    fn advance(&mut self, tick: u64) {
        self.wire.pass(tick);
    }

    fn seen(&self) -> u64 {
        self.wire.seen()
    }

    fn want(&self) -> Option<Want> {
        self.wire.want_before(self.chunk_want())
    }

    fn due(&self) -> u64 {
        self.wire.due()
    }

    fn left(&self) -> u32 {
        self.wire.left(self.level()) + self.engine_left()
    }

    fn needs(&self) -> Caps {
        Caps {
            base: false,
            enables: false,
            posted: false,
        }
    }

    /// The sectors change only by a fetch that is served with code 0, and a bad sector never changes.
    fn feed(&mut self, reply: Reply)
        requires { IsSome (disk_model.want self.old) }
        ensures feeds { self.new ≡ disk_model.feed self.old reply }
        ensures fetched { ChangesByFetch self.old reply self.new.sectors }
        ensures bad { KeepsBad self.old self.new.sectors }
    {
        let _engine = &self.engine;
        self.serve(&reply);
    }
}
