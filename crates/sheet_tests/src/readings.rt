//! Sheets that are read.
use orders::order::Order;
use sheet::read::read;
use std::test::Fail;

#[test]
fn every_kind(rt: HostRuntime) -> Result<(), Fail> {
    let mut orders = [Order::Carry; 7];
    let sheet = b"settings 5\n5 1 2 3 -99999999\norders 6\nw -7\nc\nb 4\nx 99999999\nr 3\nt 64\n";
    match read(sheet, &mut orders) {
        Ok(reading) => {
            assert_eq!(rt; reading.count, 6);
            assert_eq!(rt; reading.settings.replicas, 5);
            assert_eq!(rt; reading.settings.readers, 3);
            assert_eq!(rt; reading.settings.initial, -99_999_999);
            assert_eq!(rt; orders[0], Order::Write(-7));
            assert_eq!(rt; orders[2], Order::ReplicaOut(4));
            assert_eq!(rt; orders[3], Order::ClientOut(99_999_999));
            assert_eq!(rt; orders[4], Order::Read(3));
            assert_eq!(rt; orders[5], Order::Tell(64));
            Ok(())
        }
        Err(_) => Err(Fail::new("the sheet was refused")),
    }
}

#[test]
fn filled_before_a_fault(rt: HostRuntime) -> Result<(), Fail> {
    let mut orders = [Order::Carry; 3];
    let sheet = b"settings 5\n5 1 2 3 0\norders 3\nw 7\nb 4\nx y\n";
    match read(sheet, &mut orders) {
        Ok(_) => Err(Fail::new("the sheet was read")),
        Err(fault) => {
            assert_eq!(rt; fault.line(), 6);
            assert_eq!(rt; orders[0], Order::Write(7));
            assert_eq!(rt; orders[1], Order::ReplicaOut(4));
            assert_eq!(rt; orders[2], Order::Carry);
            Ok(())
        }
    }
}
