ghost use Rattle.std.specs.Prelude.{ℕ, List, Option, Some, [], ◌∷◌, ◌++◌, codes, false};
ghost use Rattle.http_core.specs.Event.{EventValue, Refused};
ghost use Rattle.http_core.specs.Laws.{IsCutInOneWay, CutsGoOn, PiecesGiveTheWhole};
ghost use Rattle.http_core.specs.Laws.{PiecesMakeNoDifference};
ghost use Rattle.http_core.specs.Session.{FeedsAll, Reading, SessionValue, Stands};
ghost use Rattle.http_core.specs.Stream.{Cuts};

/// A stream is cut into one list of events, with one rest. A law: it does nothing.
pub fn a_stream_is_cut_in_one_way()
    ensures one { IsCutInOneWay }
    // No stream is without a cut.
    ensures some { (prefix stream : List ℕ)
        → ((events : List EventValue) (left : Option (List ℕ))
        → Cuts prefix stream events left → ⊥)
        → ⊥ }
{}

/// A longer stream has the events of a shorter one, and then others. A law: it does nothing.
pub fn cuts_go_on()
    ensures { CutsGoOn }
{}

/// Fed in any pieces, a session answers the events of the whole stream, and is left as by any other
/// pieces. A law: it does nothing.
pub fn pieces_make_no_difference()
    ensures whole { PiecesGiveTheWhole }
    ensures same { PiecesMakeNoDifference }
{}

/// A request and a byte after it, in two pieces and in one, meet the premises of these laws. An
/// example: it does nothing.
pub fn a_request_meets_the_premises()
    ensures cuts { let get = codes "GET / HTTP/1.1\r\nHost: a\r\n\r\n" in
        Cuts [] get (Refused 404 false ∷ []) (Some [])
        × Cuts [] (get ++ 71 ∷ []) (Refused 404 false ∷ []) (Some (71 ∷ [])) }
    ensures fed { let get = codes "GET / HTTP/1.1\r\nHost: a\r\n\r\n" in
        let events = Refused 404 false ∷ [] in
        let old : SessionValue = record { prefix = []; state = Reading [] } in
        let new : SessionValue = record { prefix = []; state = Reading (71 ∷ []) } in
        Stands old [] []
        × FeedsAll old (get ∷ (71 ∷ []) ∷ []) events new
        × FeedsAll old ((get ++ 71 ∷ []) ∷ []) events new }
{}
