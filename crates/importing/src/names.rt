// Identifiers, by the places where they begin: each is looked up among the others of its kind, and each end among the nodes'.
ghost use Rattle.std.specs.Prelude.{◌≡◌};
ghost use Rattle.text.specs.Text.{apart};
ghost use Rattle.lexing.specs.Lexing.{name_at};
ghost use Rattle.importing.specs.Names.{names_at, Found, EndsKnown, AllEndsKnown, NamesHold};

// The number of the first of these names that is the one at a place.
pub fn find(text: &[u8], places: &[usize], at: usize) -> Option<usize>
    ensures { Found (name_at text.now at) (names_at text.now places.now) result }
{
    places
        .iter()
        .position(|place| lexing::same_name(text, *place, at))
}

// Whether no two of these names are the same.
fn apart(text: &[u8], places: &[usize]) -> bool
    ensures { result ≡ apart (names_at text.now places.now) }
{
    for i in 0..places.len() {
        if find(text, &places[i + 1..], places[i]).is_some() {
            return false;
        }
    }
    true
}

// Whether both ends of an edge are among the nodes.
fn ends_known(text: &[u8], node_places: &[usize], at: usize) -> bool
    ensures { EndsKnown text.now node_places.now at result }
{
    let Ok(e) = items::read_edge(text, at) else {
        return false;
    };
    find(text, node_places, e.source).is_some() && find(text, node_places, e.target).is_some()
}

// Whether both ends of each edge are.
fn all_ends_known(text: &[u8], node_places: &[usize], edge_places: &[usize]) -> bool
    ensures { AllEndsKnown text.now node_places.now edge_places.now result }
{
    for at in edge_places {
        if !ends_known(text, node_places, *at) {
            return false;
        }
    }
    true
}

// Whether no identifier is there twice among nodes or among edges, and each end is there.
pub fn names_hold(text: &[u8], node_places: &[usize], edge_places: &[usize]) -> bool
    ensures { NamesHold text.now node_places.now edge_places.now result }
{
    apart(text, node_places)
        && apart(text, edge_places)
        && all_ends_known(text, node_places, edge_places)
}
