ghost use Rattle.std.specs.Prelude.{◌≡◌, ℕ, ◌≤◌, false, List, [], ◌∷◌, length, Some};
ghost use Rattle.std.specs.List.{AllByRecursion, list_any};
ghost use Rattle.blob_digest.specs.Body.{greatest_blob};
ghost use Rattle.http_core.specs.declared.event.Area.TheVariants.{Ac, Cas};
ghost use Rattle.http_core.specs.Event.{IsValid};
ghost use Rattle.cache_server.specs.Answering.{answered, answered_all};
ghost use Rattle.cache_server.specs.Cache.{CacheValue};
ghost use Rattle.cache_server.specs.History.{CacheAfter, is_end};
ghost use Rattle.blob_source.specs.declared.source.FetchError.TheVariants.{Failed};
ghost use Rattle.remote.specs.Line.{Gets, Puts, RefusesRequest, put};
ghost use Rattle.exchange.specs.Conversation.{after, after_result, before, before_result, between};
ghost use Rattle.exchange.specs.Conversation.{blob, blob_hash, cache, get_event, history, hopeful};
ghost use Rattle.exchange.specs.Conversation.{prefix, put_alone, put_event, refused, tight_cache};
ghost use Rattle.exchange.specs.Connections.{TellsAllOver};
ghost use Rattle.exchange.specs.Serving.{IsServed, alone, held, own_replies};
ghost use Rattle.exchange.specs.Laws.{AloneIsAnswered, AnswersAreRead, BlobsHaveTheirHash};
ghost use Rattle.exchange.specs.Laws.{ClientsReadTheAnswers, ConnectionsAreServed, FaultsAreTold};
ghost use Rattle.exchange.specs.Laws.{GetsWhatIsHeld, PutsThenGets, PutsWhatIsTaken};
ghost use Rattle.exchange.specs.Laws.{RepliesAreSmall, RequestsAreUnderstood, ResultsComeBack};
ghost use Rattle.exchange.specs.Laws.{WhatIsGotHasTheHash, WhatIsPutIsGot};

/// A server takes what a client sends for what it asks. A law: it does nothing.
pub fn requests_are_understood()
    ensures { RequestsAreUnderstood }
{}

/// A client reads what a server answers. A law: it does nothing.
pub fn answers_are_read()
    ensures { AnswersAreRead }
{}

/// A client over a stream with a session of a server at its other end reads what the cache answers.
/// A law: it does nothing.
pub fn clients_read_what_caches_answer()
    ensures replies { ClientsReadTheAnswers }
    ensures gets { GetsWhatIsHeld }
    ensures puts { PutsWhatIsTaken }
    ensures faults { FaultsAreTold }
    ensures small { RepliesAreSmall }
{}

/// What a server sends over a connection, and a run over one, is what a cache answers to its
/// stream. A law: it does nothing.
pub fn connections_are_served()
    ensures server { ConnectionsAreServed }
    ensures alone { AloneIsAnswered }
{}

/// What is put and then got over one connection is the same. A law: it does nothing.
pub fn what_is_put_is_got()
    ensures blobs { WhatIsPutIsGot }
    ensures hashes { WhatIsGotHasTheHash }
    ensures later { BlobsHaveTheirHash }
    ensures results { ResultsComeBack }
{}

/// A put and a get of a blob over a stream in memory, and a put without room, meet the premises of
/// these laws. An example: it does nothing.
pub fn a_conversation_meets_the_premises()
    ensures blob { PutsThenGets Cas cache before after blob_hash blob (Some blob) }
    ensures result { PutsThenGets Ac cache before_result after_result blob_hash [] (Some []) }
    ensures cache { CacheAfter prefix cache [] cache
        × ((other : List ℕ) → held cache.state Cas blob_hash ≡ Some other → other ≡ blob) }
    ensures put { Puts before between Cas blob_hash blob
        × IsServed prefix cache (alone (put_event ∷ [])) before.flow between.flow }
    ensures get { CacheAfter prefix cache put_alone (answered cache put_event).1
        × Gets between after Cas blob_hash (Some blob)
        × IsServed prefix (answered cache put_event).1 (alone (get_event ∷ []))
        between.flow after.flow }
    ensures full { RefusesRequest hopeful refused (put Cas blob_hash blob) Failed
        × IsServed prefix tight_cache (alone (put_event ∷ [])) hopeful.flow refused.flow
        × AllByRecursion (λ reply. length reply.body ≤ greatest_blob)
        (own_replies tight_cache (alone (put_event ∷ []))) }
    ensures valid { AllByRecursion IsValid (put_event ∷ get_event ∷ []) }
    ensures history { let out : List ℕ × CacheValue =
        answered_all cache (put_event ∷ get_event ∷ []) in
        CacheAfter prefix cache history out.1 × (list_any (is_end 0) history ≡ false)
        × TellsAllOver prefix cache 0 [] history out.0 }
{}
