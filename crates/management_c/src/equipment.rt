// The calls of `management::equipment` for C: each calls the function of its name, and states its clauses again.
ghost use Rattle.std.specs.Prelude.{length};
ghost use Rattle.management.specs.Equipment.{Leaves, equipment_of};

#[unsafe(no_mangle)]
pub extern "C" fn rime_equipment(
    ports: &mut [u8],
    message: &[u8],
    answer: &mut [u8],
    report: &mut [u64; 4],
) -> u8
    ensures { Leaves (equipment_of ports.old message.now (length answer.old)) answer.old result
        ports.new answer.new report.new }
{
    management::equipment::rime_equipment(ports, message, answer, report)
}
