// The calls of `rimesatchel::boxes` for C: each calls the function of its name, and states its clauses again.
ghost use Rattle.std.specs.Prelude.{◌≡◌};
ghost use Rattle.rimesatchel.specs.Boxes.{receiver_of, OpenedSender, SentOctets, OpenedReceiver, ReceivedOctets};

#[unsafe(no_mangle)]
pub extern "C" fn rime_sender_open(
    format: u32,
    channels: u32,
    order: u32,
    number: u32,
    wanted: bool,
    second: u32,
    state: &mut [u8; 7],
) -> u8
    ensures { OpenedSender format channels order number wanted second result state.new }
{
    rimesatchel::boxes::rime_sender_open(format, channels, order, number, wanted, second, state)
}

#[unsafe(no_mangle)]
pub extern "C" fn rime_send(
    state: &mut [u8; 7],
    indication: bool,
    samples: &[u64],
    ancillary: &[u8],
    cell: &mut [u8],
) -> u8
    ensures { SentOctets state.old indication samples.now ancillary.now cell.old result state.new cell.new }
{
    rimesatchel::boxes::rime_send(state, indication, samples, ancillary, cell)
}

#[unsafe(no_mangle)]
pub extern "C" fn rime_receiver_open(
    format: u32,
    channels: u32,
    order: u32,
    state: &mut [u8; 9],
) -> u8
    ensures { OpenedReceiver format channels order result state.new }
{
    rimesatchel::boxes::rime_receiver_open(format, channels, order, state)
}

#[unsafe(no_mangle)]
pub extern "C" fn rime_receive(
    state: &mut [u8; 9],
    cell: &[u8],
    indication: bool,
    samples: &mut [u64],
    ancillary: &mut [u8],
    marks: &mut [u8],
    report: &mut [u8; 4],
) -> u8
    ensures { ReceivedOctets state.old cell.now indication samples.old ancillary.old marks.old result state.new samples.new ancillary.new marks.new report.new }
{
    rimesatchel::boxes::rime_receive(state, cell, indication, samples, ancillary, marks, report)
}

#[unsafe(no_mangle)]
pub extern "C" fn rime_receiver_placed(state: &[u8; 9]) -> u32
    ensures { result ≡ (receiver_of state.now).count }
{
    rimesatchel::boxes::rime_receiver_placed(state)
}
