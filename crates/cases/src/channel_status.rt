// Document 01, "Channel status": the two examples of source document 002, Appendix 2.
use status::check::check_character;

fn tell(rt: &impl Print, what: &str, character: u8) {
    let _ = println!(rt; "{what}{character:02x}");
}

pub(crate) fn cases(rt: &impl Print) {
    let mut first = [0u8; 24];
    first[0] = 0b11_1101;
    first[1] = 0b10;
    first[4] = 0b10;
    tell(
        rt,
        "Appendix 2, example 1: check character ",
        check_character(first),
    );
    let mut second = [0u8; 24];
    second[0] = 1;
    tell(
        rt,
        "Appendix 2, example 2: check character ",
        check_character(second),
    );
}
