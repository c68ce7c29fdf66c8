//! A line that no run of the program prints.
use ids::ObjId;
use server_words::{Fault, Line};

const TAKEN: &str = "seaf-server: taken cccccccccccccccccccccccccccccccccccccccc\n";

#[test]
fn a_fault_names_its_object(rt: HostRuntime) {
    let line = Line::Fault(Fault::Taken(ObjId::from_bytes([204; 20])));
    assert!(rt; line.text().slice() == TAKEN.as_bytes() && line.status() == 1);
}
