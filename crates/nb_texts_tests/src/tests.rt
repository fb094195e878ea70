//! A catalog of which a request for memory is refused.

ghost use Rattle.nb_texts.specs.Catalogs.{IsAtRest};

use nb_texts::{Catalog, Hashing};
use std::alloc::Global;
use std::process::Abort;
use std::sync::Wait;
use std::thread::Threads;

/// A catalog with room for a few lines, of which many have the same hash.
fn opened<R: Abort>(rt: &R, alloc: Global) -> Catalog
    ensures { IsAtRest result }
{
    let hashing = Hashing::new(7, 2);
    if let Ok(catalog) = Catalog::open(alloc, hashing, 4, None) {
        return catalog;
    }
    Catalog::open(alloc, hashing, 4, None).expect(rt, "memory")
}

/// Makes room. Where that is refused, the catalog is brought to rest, and it is asked for again.
fn make_room<R: Abort>(rt: &R, alloc: Global, catalog: &mut Catalog)
    requires { IsAtRest catalog.old }
    ensures { IsAtRest catalog.new }
{
    match catalog.make_room(alloc, 64) {
        Ok(()) => {}
        Err(_) => {
            catalog.rest(alloc).expect(rt, "memory");
            catalog.make_room(alloc, 64).expect(rt, "memory");
        }
    }
}

/// Enters the lines of a block. Where that is refused, the catalog is brought to rest, and they are
/// entered then.
fn enter<R: Abort + Threads + Sync + Wait>(
    rt: &R,
    alloc: Global,
    catalog: &mut Catalog,
    block: &[u8],
)
    requires { IsAtRest catalog.old }
    ensures { IsAtRest catalog.new }
{
    match catalog.enter(rt, alloc, block, 2) {
        Ok(_places) => {}
        Err(_) => {
            catalog.rest(alloc).expect(rt, "memory");
            let _places = catalog.enter(rt, alloc, block, 2).expect(rt, "memory");
        }
    }
}

/// Whichever one request for memory is refused, the catalog goes on, with the same lines.
#[test]
fn refused_memory(rt: HostRuntime) {
    let mut catalog = opened(&rt, rt.alloc());
    make_room(&rt, rt.alloc(), &mut catalog);
    enter(&rt, rt.alloc(), &mut catalog, b"tea\nmilk\ntea\n");
    enter(
        &rt,
        rt.alloc(),
        &mut catalog,
        b"milk\ncoffee\nwater\ntea\nsugar\nsalt\nbread",
    );
    assert!(rt; catalog.len() == 7);
    assert!(rt; catalog.get(2) == Some(b"coffee"));
    assert!(rt; catalog.get(6) == Some(b"bread"));
}
