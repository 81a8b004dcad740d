// The calls of `management::controller` for C: each calls the function of its name, and states its clauses again.
ghost use Rattle.management.specs.Controller.{Takes};

#[unsafe(no_mangle)]
pub extern "C" fn rime_controller(ports: &mut [u8], message: &[u8]) -> u8
    ensures { Takes ports.old message.now result ports.new }
{
    management::controller::rime_controller(ports, message)
}
