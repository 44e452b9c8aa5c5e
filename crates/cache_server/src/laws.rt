ghost use Rattle.std.specs.Prelude.{◌≡◌, ℕ, List, [], ◌∷◌, ◌++◌, Some, codes, false};
ghost use Rattle.sha2.specs.Sha256.{sha256};
ghost use Rattle.http_core.specs.declared.event.Area.TheVariants.{Cas};
ghost use Rattle.http_core.specs.Event.{Get, Refused};
ghost use Rattle.http_core.specs.Stream.{Cuts};
ghost use Rattle.cache_server.specs.Answering.{answered};
ghost use Rattle.cache_server.specs.Cache.{CacheValue, applied, unused_cache};
ghost use Rattle.cache_server.specs.Connection.{IsAnswered};
ghost use Rattle.cache_server.specs.History.{AnswersTo, CacheAfter, Piece};
ghost use Rattle.cache_server.specs.Laws.{LeadsToOneCache, HasOneAnswer, AnswersItsHash};
ghost use Rattle.cache_server.specs.Laws.{BeginsTheAnswers};

/// A history leads to one cache, and a piece after it has one text of answers. A law: it does
/// nothing.
pub fn histories_are_answered_in_one_way()
    ensures caches { LeadsToOneCache }
    ensures answers { HasOneAnswer }
{}

/// What is answered to a look-up of a blob has the hash that was asked for. A law: it does nothing.
pub fn blobs_are_answered_under_their_hashes()
    ensures { AnswersItsHash }
{}

/// What a run wrote that was given up begins the answers to all that it had read. A law: it does
/// nothing.
pub fn answers_begin_the_answers_to_the_whole()
    ensures { BeginsTheAnswers }
{}

/// A request, with the byte after it, meets the premises of these laws. An example: it does
/// nothing.
pub fn a_history_meets_the_premises()
    ensures { let get = codes "GET / HTTP/1.1\r\nHost: a\r\n\r\n" in
        let opening = unused_cache 0 0 in
        let out : List ℕ × CacheValue = answered opening (Refused 404 false) in
        CacheAfter [] opening (Piece 0 get ∷ []) out.1
        × AnswersTo [] opening [] (Piece 0 get) out.0
        × IsAnswered [] opening get out.0 (Some []) out.1
        × Cuts [] (get ++ 71 ∷ []) (Refused 404 false ∷ []) (Some (71 ∷ []))
        × ((applied out.1 (Get Cas (sha256 []))).0.status ≡ 200) }
{}
