//! What follows from the definitions of sets alone: functions without a body, each with its law as its contract.
ghost use Rattle.std.specs.Prelude.{◌≡◌, ◌≢◌, ℕ, ◌<◌, Option, Some, None, List, [], ◌∷◌};
ghost use Rattle.simset.specs.Instances.{Memberships, instance_of, linkage_of, with_linkage};
ghost use Rattle.simset.specs.Sets.{Linkage, Link, Head, IsLinkAt, IsHeadAt, IsProper, times_in, suc_of, pred_of, cardinal_of, links_of, without, put_after, put_before, put_last, emptied, backwards, out, follow, precede, into, clear};

/// What each procedure makes of the list of each head: the link leaves every list, and is then put beside the other linkage, which
/// is the head itself or stands in the list, or last in the list of the head.
pub fn the_list_of_a_head_becomes()
    ensures out { (sets : List Linkage) (x h : ℕ) → IsHeadAt sets h → links_of (out sets x) h ≡ without x (links_of sets h) }
    ensures follow { (sets : List Linkage) (x p h : ℕ) → IsHeadAt sets h
        → links_of (follow sets x (Some p)) h ≡ put_after x p h (without x (links_of sets h)) }
    ensures precede { (sets : List Linkage) (x p h : ℕ) → IsHeadAt sets h
        → links_of (precede sets x (Some p)) h ≡ put_before x p h (without x (links_of sets h)) }
    ensures into { (sets : List Linkage) (x p h : ℕ) → IsHeadAt sets h
        → links_of (into sets x (Some p)) h ≡ put_last x p h (without x (links_of sets h)) }
    ensures clear { (sets : List Linkage) (p h : ℕ) → IsHeadAt sets h → links_of (clear sets p) h ≡ emptied p h (links_of sets h) }
    ensures before_a_head { (sets : List Linkage) (x h : ℕ) → IsProper sets → IsHeadAt sets h → precede sets x (Some h) ≡ into sets x (Some h) }
    ensures follow_none { (sets : List Linkage) (x : ℕ) → follow sets x None ≡ out sets x }
    ensures precede_none { (sets : List Linkage) (x : ℕ) → precede sets x None ≡ out sets x }
    ensures into_none { (sets : List Linkage) (x : ℕ) → into sets x None ≡ out sets x }
{}

/// What precedes in the sets follows in the sets read backwards.
pub fn backwards_what_precedes_follows()
    ensures precede { (sets : List Linkage) (x : ℕ) (p : Option ℕ) → precede sets x p ≡ backwards (follow (backwards sets) x p) }
    ensures pred { (sets : List Linkage) (x : ℕ) → IsProper sets → pred_of sets x ≡ suc_of (backwards sets) x }
{}

/// A link is in at most one set, and there once, after each change: whatever stands in a set before is a link that
/// was made, and in no other place.
pub fn a_link_is_in_one_set()
    ensures out { (sets : List Linkage) (x : ℕ) → IsProper sets → IsProper (out sets x) }
    ensures follow { (sets : List Linkage) (x : ℕ) (p : Option ℕ) → IsProper sets → IsLinkAt sets x
        → IsProper (follow sets x p) }
    ensures precede { (sets : List Linkage) (x : ℕ) (p : Option ℕ) → IsProper sets → IsLinkAt sets x
        → IsProper (precede sets x p) }
    ensures into { (sets : List Linkage) (x h : ℕ) → IsProper sets → IsLinkAt sets x → IsHeadAt sets h
        → IsProper (into sets x (Some h)) }
    ensures clear { (sets : List Linkage) (h : ℕ) → IsProper sets → IsProper (clear sets h) }
{}

/// A link that is put beside itself, or beside a link that is in no set, stays outside.
pub fn beside_no_place_a_link_stays_outside()
    ensures out { (sets : List Linkage) (x : ℕ) → times_in x (out sets x) ≡ 0 }
    ensures follow_itself { (sets : List Linkage) (x : ℕ) → IsLinkAt sets x → follow sets x (Some x) ≡ out sets x }
    ensures precede_itself { (sets : List Linkage) (x : ℕ) → IsLinkAt sets x → precede sets x (Some x) ≡ out sets x }
    ensures follow_outside { (sets : List Linkage) (x p : ℕ) → IsLinkAt sets p → times_in p sets ≡ 0
        → follow sets x (Some p) ≡ out sets x }
    ensures precede_outside { (sets : List Linkage) (x p : ℕ) → IsLinkAt sets p → times_in p sets ≡ 0
        → precede sets x (Some p) ≡ out sets x }
{}

/// A link that follows another one in a set is its next link, and one that precedes it the link before it.
pub fn a_link_beside_a_link_is_its_neighbour()
    ensures behind { (sets : List Linkage) (x p : ℕ) → IsProper sets → IsLinkAt sets x → p ≢ x
        → 0 < times_in p sets → suc_of (follow sets x (Some p)) p ≡ Some x }
    ensures in_front { (sets : List Linkage) (x p : ℕ) → IsProper sets → IsLinkAt sets x → p ≢ x
        → 0 < times_in p sets → pred_of (follow sets x (Some p)) x ≡ Some p }
    ensures before { (sets : List Linkage) (x p : ℕ) → IsProper sets → IsLinkAt sets x → p ≢ x
        → 0 < times_in p sets → pred_of (precede sets x (Some p)) p ≡ Some x }
    ensures after { (sets : List Linkage) (x p : ℕ) → IsProper sets → IsLinkAt sets x → p ≢ x
        → 0 < times_in p sets → suc_of (precede sets x (Some p)) x ≡ Some p }
{}

/// A link that follows a head is the first of its set, one that precedes it or goes into its set the last; after
/// `clear` the set is empty.
pub fn the_ends_of_a_set()
    ensures first { (sets : List Linkage) (x h : ℕ) → IsHeadAt sets h → suc_of (follow sets x (Some h)) h ≡ Some x }
    ensures last { (sets : List Linkage) (x h : ℕ) → IsHeadAt sets h → pred_of (precede sets x (Some h)) h ≡ Some x }
    ensures into { (sets : List Linkage) (x h : ℕ) → IsHeadAt sets h → pred_of (into sets x (Some h)) h ≡ Some x }
    ensures clear { (sets : List Linkage) (h : ℕ) → cardinal_of (clear sets h) h ≡ 0 }
{}

/// Linkages have numbers in the order in which their instances were made: here instance 4, a head, and then instance 7, a link.
pub fn worked_instances()
    ensures made { (m : Memberships) → m.instances ≡ [] → m.sets ≡ []
        → with_linkage 7 Link (with_linkage 4 (Head []) m) ≡ record { instances = 4 ∷ 7 ∷ []; sets = Head [] ∷ Link ∷ [] } }
    ensures linkage { linkage_of (4 ∷ 7 ∷ []) 7 ≡ Some 1 }
    ensures no_linkage { linkage_of (4 ∷ 7 ∷ []) 5 ≡ None }
    ensures instance { instance_of (4 ∷ 7 ∷ []) 1 ≡ Some 7 }
    ensures no_instance { instance_of (4 ∷ 7 ∷ []) 2 ≡ None }
{}
