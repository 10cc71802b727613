//! The errors by their numbers and names, and what they print.
use fe2o3_amqp_types::codec::Error;
use std::io::ErrorKind;
use std::test::Fail;

fn is_named(error: Error, number: u8, name: &str) -> bool {
    error.number() == number && error.name() == name
}

#[test]
fn numbers_and_names(rt: HostRuntime) -> Result<(), Fail> {
    let names = [
        (Error::Cut, 1, "Cut"),
        (Error::UnknownCode(9), 2, "UnknownCode"),
        (Error::FloatCode(0x72), 3, "FloatCode"),
        (Error::Memory, 21, "Memory"),
        (Error::Read(ErrorKind::NotFound), 22, "Read"),
        (Error::WrongType(0), 27, "WrongType"),
        (Error::Custom(7), 29, "Custom"),
        (Error::Limit, 31, "Limit"),
    ];
    for (error, number, name) in &names {
        assert!(rt; is_named(*error, *number, *name), "of {name}");
    }
    let printed = Error::UnknownCode(9).to_string(rt.alloc())?;
    assert_eq!(rt; printed.as_str(), "no constructor has the code 0x09");
    Ok(())
}
