//! A run without gates.
use super::program::INC;
use super::scene::placed;
use jmodel::NoMemory;
use script::EngineKind;

#[test]
fn a_run_without_gates_places_its_call(rt: HostRuntime) -> Result<(), NoMemory> {
    for engine in [EngineKind::Tl2, EngineKind::Lsa] {
        let count = placed(&rt, rt.alloc(), engine, INC)?;
        assert!(rt; count == 1);
    }
    Ok(())
}
