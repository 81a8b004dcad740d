// What a box is opened with, by a port's record, and the packing octet that stands for it (6.2, 6.3).
ghost use Rattle.std.specs.Prelude.{◌≡◌};
ghost use Rattle.management.specs.Packing.{order_coded, Sets, Packs};

// Takes a port's record: the refusal (0, or 1, 2 or 3 as an opening has them, and then zeros are left), and the format, C and order.
pub fn rime_port_settings(port: &[u8; 28], settings: &mut [u32; 3]) -> u8
    ensures { Sets port.now result settings.new }
{
    let format = u32::from(port[3]);
    let packing = u32::from(port[4]);
    let channels = packing % 64;
    let order = packing / 64;
    if let Err(refusal) = formats::settings(format, channels, order) {
        *settings = [0; 3];
        return refusal.into();
    }
    *settings = [format, channels, order];
    0
}

// 6.3.2: the order that is coded, which is 0 for one channel and for as many channels as slots.
#[tactic(auto, unfolding(crate::specs::Packing::order_coded))]
fn order_coded(slots: usize, channels: u32, order: u32) -> u32
    ensures { result ≡ order_coded slots channels order }
{
    if channels == 1 || channels as usize == slots {
        0
    } else {
        order
    }
}

// Takes a format, C and order: the refusal (0, or 1, 2 or 3 as an opening has them, and then 0 is left), and the packing octet.
pub fn rime_port_packing(format: u32, channels: u32, order: u32, packing: &mut u8) -> u8
    ensures { Packs format channels order result packing.new }
{
    let set = match formats::settings(format, channels, order) {
        Ok(set) => set,
        Err(refusal) => {
            *packing = 0;
            return refusal.into();
        }
    };
    let coded = order_coded(set.format.slots, channels, order);
    *packing = (coded * 64 + channels) as u8;
    0
}
