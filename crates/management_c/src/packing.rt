// The calls of `management::packing` for C: each calls the function of its name, and states its clauses again.
ghost use Rattle.management.specs.Packing.{Sets, Packs};

#[unsafe(no_mangle)]
pub extern "C" fn rime_port_settings(port: &[u8; 28], settings: &mut [u32; 3]) -> u8
    ensures { Sets port.now result settings.new }
{
    management::packing::rime_port_settings(port, settings)
}

#[unsafe(no_mangle)]
pub extern "C" fn rime_port_packing(format: u32, channels: u32, order: u32, packing: &mut u8) -> u8
    ensures { Packs format channels order result packing.new }
{
    management::packing::rime_port_packing(format, channels, order, packing)
}
