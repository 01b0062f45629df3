ghost use Rattle.std.specs.Prelude.{◌≡◌};
ghost use Rattle.outside.specs.Slots.{Unopened, AllUnopened};
ghost use Rattle.std.specs.Borrow.{sem, Lends};
ghost use Rattle.outside.specs.contracts.devices.Devices.{the_row};
ghost use Rattle.outside.specs.Devices.{device_of, with_device, all_unwritten};

use crate::device::Device;
use crate::fault::Failed;
use crate::files::Files;
use crate::slot::Slot;

/// A device behind each slot, which are files together.
#[derive(Drop)]
pub struct Devices<D> {
    pub instance: D,
    pub cert_in: D,
    pub cert_out: D,
}

impl<D> Devices<D> {
    /// The device behind a slot.
    pub fn device_mut(&mut self, slot: Slot) -> &mut D
        ensures* writes_back { sem 𝓛 (Lends (the_row D.row) D.row self.entry result (with_device self.old slot)) }
        ensures value { result.now ≡ device_of self.old slot }
    {
        match slot {
            Slot::Instance => &mut self.instance,
            Slot::CertIn => &mut self.cert_in,
            Slot::CertOut => &mut self.cert_out,
        }
    }
}

impl<D: Device> Devices<D> {
    /// Files of three unopened devices.
    pub fn new(instance: D, cert_in: D, cert_out: D) -> Self
        requires instance { (D.state instance).stage ≡ Unopened }
        requires cert_in { (D.state cert_in).stage ≡ Unopened }
        requires cert_out { (D.state cert_out).stage ≡ Unopened }
        ensures devices { result ≡ record { instance = instance; cert_in = cert_in; cert_out = cert_out } }
        ensures unopened { AllUnopened (⟦<Devices<D> as Files>⟧.state result) }
    {
        Devices {
            instance,
            cert_in,
            cert_out,
        }
    }
}

impl<D: Device> Files for Devices<D> {
    ghost state = { λ files slot. D.state (device_of files slot) };

    ghost unopened_is_unwritten = { all_unwritten D.state D.unopened_is_unwritten };

    fn open_slot(&mut self, slot: Slot, name: &str) -> Result<(), Failed> {
        self.device_mut(slot).open(name)
    }

    fn read(&mut self, slot: Slot, buf: &mut [u8]) -> Result<usize, Failed> {
        self.device_mut(slot).read(buf)
    }

    fn write(&mut self, slot: Slot, piece: &[u8]) -> Result<usize, Failed> {
        self.device_mut(slot).write(piece)
    }

    fn finish(&mut self, slot: Slot) -> Result<(), Failed> {
        self.device_mut(slot).finish()
    }
}
