ghost use Rattle.std.specs.Prelude.{None};

use node_device::{AreaRead, Device, Received, Shipped, Stored};
use outside::{Address, Begun};

// A device that tells nothing of what it does. What a call asks of areas that are told, it does not ask of such a one.
#[derive(Drop)]
pub struct Silent<D> {
    pub device: D,
}

impl<D: Device> Device for Silent<D> {
    ghost told = { λ _. None };

    ghost begun = { λ s. D.begun s.device };

    ghost faults = { λ s. D.faults s.device };

    ghost wants = { λ s. D.wants s.device };

    fn begin(&mut self, at: Address, dir: &str) -> Begun {
        self.device.begin(at, dir)
    }

    fn now(&mut self) -> u64 {
        self.device.now()
    }

    fn receive(&mut self, wait_ms: u32, buf: &mut [u8]) -> Received {
        self.device.receive(wait_ms, buf)
    }

    fn send(&mut self, to: Address, bytes: &[u8]) -> Shipped {
        self.device.send(to, bytes)
    }

    fn read_at(&mut self, area: u8, at: u64, buf: &mut [u8]) -> AreaRead {
        self.device.read_at(area, at, buf)
    }

    fn write_at(&mut self, area: u8, at: u64, bytes: &[u8]) -> Stored {
        self.device.write_at(area, at, bytes)
    }

    fn cut(&mut self, area: u8, len: u64) -> Stored {
        self.device.cut(area, len)
    }

    fn sync(&mut self, area: u8) -> Stored {
        self.device.sync(area)
    }
}
