// The calls of `rimesatchel::contents` for C: each calls the function of its name, and states its clauses again.
ghost use Rattle.std.specs.Prelude.{◌≡◌};
ghost use Rattle.presence.specs.Presence.{presence_of};
ghost use Rattle.rimesatchel.specs.Contents.{presence_numbers};

#[unsafe(no_mangle)]
pub extern "C" fn rime_anything(log: &[u8], answer: &mut [u64; 2]) -> u8
    ensures { (result ≡ (presence_of log.now).refusal) × (answer.new ≡ presence_numbers (presence_of log.now)) }
{
    rimesatchel::contents::rime_anything(log, answer)
}
