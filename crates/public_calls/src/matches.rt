// The match of a virtual, as it is asked of a class, of a block with levels, and of what is declared. Declarations and blocks of the program are
// numbered from 0.

use command_line::Command;
use sim_base::DeclNo;
use sim_driver::bind;
use sim_scope::Scopes;
use virtual_match::{match_in, match_of, name_of, virtual_for};

// Class 0 with virtual 1, class 2 with procedures 3 and 4, and class 5, which are blocks 1 to 5.
const PROGRAM: &[u8] =
    b"begin class a; virtual: procedure p;; a class b; begin procedure p;; procedure q;; end; b class c;; end";

fn classes_have_matches(scopes: &Scopes) -> bool {
    match_of(scopes, DeclNo(0), DeclNo(1)).is_none()
        && match_of(scopes, DeclNo(2), DeclNo(1)) == Some(DeclNo(3))
        && match_of(scopes, DeclNo(5), DeclNo(1)) == Some(DeclNo(3))
}

fn blocks_have_matches(scopes: &Scopes) -> bool {
    let name = name_of(scopes, DeclNo(1));
    name == b"p".as_slice()
        && match_in(scopes, name, Some(5)) == Some(DeclNo(3))
        && match_in(scopes, name, Some(1)).is_none()
        && match_in(scopes, name, None).is_none()
}

// The virtual that a declaration matches.
fn matched(scopes: &Scopes, declaration: usize) -> Option<DeclNo> {
    virtual_for(scopes, scopes.declarations().get(declaration)?)
}

#[test]
fn matches_of_virtuals(rt: HostRuntime) {
    match bind(rt.alloc(), Command::Run, PROGRAM) {
        Ok(bound) => {
            assert!(rt; classes_have_matches(&bound.scopes));
            assert!(rt; blocks_have_matches(&bound.scopes));
            assert!(rt; matched(&bound.scopes, 3) == Some(DeclNo(1)));
            assert!(rt; matched(&bound.scopes, 4).is_none());
        }
        Err(_) => assert!(rt; false, "the program breaks no rule"),
    }
}
