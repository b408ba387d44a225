ghost use Rattle.std.specs.Prelude.{◌≡◌, ℕ, List, [], codes, None, Ok, Err, true, false, ◌∷◌, negsuc};
ghost use Rattle.serde_json.specs.Read.{max_depth};
ghost use Rattle.json_model.specs.Names.{camel};
ghost use Rattle.json_model.specs.FieldNames as names;
ghost use Rattle.json_model.specs.Mapping.{request_of};
ghost use Rattle.json_model.specs.Answers.{answer_of};
ghost use Rattle.json_model.specs.WatchItems.{item_of};
ghost use Rattle.json_model.specs.WrittenRequests.{request_text};
ghost use Rattle.json_model.specs.WrittenReplies.{answer_status, answer_text, item_text};
ghost use Rattle.json_model.specs.declared.extra.Reading.TheVariants.{Client, Call};
ghost use Rattle.json_model.specs.declared.fault.ApiFault.TheVariants.{NotJson, NoSuchPath, Unsupported, Field};
ghost use Rattle.json_model.specs.declared.fault.FieldFault.TheVariants.{WrongKind, BadNumber, BadBase64, UnknownField, TwiceNamed};
ghost use Rattle.json_model.specs.declared.fault.NotReply.TheVariants.{Unreadable};
ghost use Rattle.etcd_types.specs.declared.request.Request.TheVariants as request;
ghost use Rattle.etcd_types.specs.declared.answer.Answer.TheVariants.{Done, Refused};
ghost use Rattle.etcd_types.specs.declared.answer.Body.TheVariants as body;
ghost use Rattle.etcd_types.specs.declared.watch.Change.TheVariants as change;
ghost use Rattle.etcd_types.specs.declared.watch.WatchItem.TheVariants.{Created, Events, Canceled};

/// A law: worked rows of requests that are read, which the definition computes.
pub fn requests_by_example()
    ensures url_safe { request_of Client (codes "/v3/kv/put") (codes "{\"key\":\"-_8\",\"value\":null}")
        ≡ Ok (request.Put (record { key = 251 ∷ 255 ∷ []; value = []; lease = 0; prev_kv = false; ignore_lease = false })) }
    ensures twice { request_of Client (codes "/v3/kv/range") (codes "{\"key\":\"YQ==\",\"range_end\":\"Yg==\",\"rangeEnd\":\"Yg==\"}")
        ≡ Err (Field (TwiceNamed (codes "range_end"))) }
    ensures negative { request_of Client (codes "/v3/kv/put") (codes "{\"key\":\"YQ==\",\"lease\":-1}")
        ≡ Err (Field (BadNumber (codes "lease"))) }
    ensures padding { request_of Client (codes "/v3/kv/put") (codes "{\"key\":\"YQ=\",\"value\":\"eA==\"}")
        ≡ Err (Field (BadBase64 (codes "key"))) }
    ensures unsupported { request_of Client (codes "/v3/kv/put") (codes "{\"key\":\"YQ==\",\"ignore_lease\":true}")
        ≡ Err (Unsupported (codes "ignore_lease")) }
    ensures first_key { request_of Client (codes "/v3/kv/put") (codes "{\"key\":\"YQ==\",\"zz\":1,\"aa\":2}")
        ≡ Err (Field (UnknownField (codes "aa"))) }
    ensures first_field { request_of Client (codes "/v3/kv/put") (codes "{\"lease\":-1,\"value\":7,\"key\":\"YQ==\"}")
        ≡ Err (Field (WrongKind (codes "value"))) }
    ensures no_path { request_of Client (codes "/v2/keys") (codes "{}") ≡ Err NoSuchPath }
    ensures no_object { request_of Client (codes "/v3/kv/put") (codes "[]") ≡ Err NotJson }
    ensures no_fields { request_of Client (codes "/v3/lease/leases") (codes "{\"\":1}") ≡ Err (Field (UnknownField [])) }
{}

/// A law: worked rows of answers and of messages of watches that are read.
pub fn replies_by_example()
    ensures put { answer_of
        (request.Put (record {
          key = [];
          value = [];
          lease = 0;
          prev_kv = false;
          ignore_lease = false;
        })) 200
        (codes "{\"header\":{\"cluster_id\":\"14841639068965178418\",\"revision\":3,\"raftTerm\":\"2\"},\"new_field\":[1]}\n")
        ≡ Ok (Done (record { header = record { cluster = 14841639068965178418; member = 0; revision = 3; term = 2 }; body = body.Put None })) }
    ensures record { answer_of
        (request.Delete (record { range = record { key = 97 ∷ []; end = [] }; prev_kv = true })) 200
        (codes "{\"deleted\":\"1\",\"prev_kvs\":[{\"key\":\"YQ==\",\"create_revision\":\"2\",\"mod_revision\":\"3\",\"version\":\"2\"}]}")
        ≡ Ok (Done (record {
          header = record { cluster = 0; member = 0; revision = 0; term = 0 };
          body = body.Delete 1 (record {
            key = 97 ∷ [];
            value = [];
            create = 2;
            modified = 3;
            version = 2;
            lease = 0;
          } ∷ []);
        })) }
    ensures in_result { answer_of (request.KeepAlive 7) 200 (codes "{\"result\":{\"ID\":\"7\",\"TTL\":\"30\"}}")
        ≡ Ok (Done (record { header = record { cluster = 0; member = 0; revision = 0; term = 0 }; body = body.KeepAlive 7 30 })) }
    ensures no_result { answer_of (request.KeepAlive 7) 200 (codes "{\"ID\":\"7\",\"TTL\":\"30\"}") ≡ Err Unreadable }
    ensures refusal { answer_of request.Leases 400 (codes "{\"error\":\"x\",\"code\":3,\"message\":\"no key\"}") ≡ Ok (Refused (record { code = 3; text = codes "no key" })) }
    ensures no_code { answer_of request.Leases 500 (codes "{\"message\":\"no key\"}") ≡ Err Unreadable }
    ensures twice { answer_of
        (request.Put (record {
          key = [];
          value = [];
          lease = 0;
          prev_kv = false;
          ignore_lease = false;
        })) 200
        (codes "{\"prev_kv\":null,\"prevKv\":null}") ≡ Err Unreadable }
    ensures created { item_of (codes "{\"result\":{\"header\":{\"revision\":\"3\"},\"created\":true}}\n")
        ≡ Ok (Created (record { cluster = 0; member = 0; revision = 3; term = 0 })) }
    ensures deletion { item_of (codes "{\"result\":{\"events\":[{\"type\":\"DELETE\",\"kv\":{\"key\":\"YQ==\",\"modRevision\":\"5\"}}]}}")
        ≡ Ok (Events (record { cluster = 0; member = 0; revision = 0; term = 0 }) (record { change = change.Delete (97 ∷ []) 5; prev = None } ∷ [])) }
    ensures canceled { item_of
        (codes "{\"result\":{\"created\":true,\"canceled\":true,\"compact_revision\":\"9\"}}")
        ≡ Ok (Canceled (record { cluster = 0; member = 0; revision = 0; term = 0 }) 9) }
{}

/// A law: worked rows of what is written for requests, answers and messages of watches.
pub fn written_by_example()
    ensures put { request_text (request.Put (record { key = 97 ∷ []; value = 251 ∷ 255 ∷ []; lease = 7; prev_kv = true; ignore_lease = false }))
        ≡ codes "{\"key\":\"YQ==\",\"lease\":\"7\",\"prev_kv\":true,\"value\":\"+/8=\"}" }
    ensures range { request_text (request.Range (record {
      range = record { key = 97 ∷ []; end = [] };
      revision = 0;
      limit = 10;
      serializable = false;
      keys_only = false;
      count_only = false;
      sort = record { order = 2; target = 5; min_mod = 0; max_mod = 0; min_create = 0; max_create = 0 };
    }))
        ≡ codes "{\"key\":\"YQ==\",\"limit\":\"10\",\"sort_order\":\"DESCEND\",\"sort_target\":5}" }
    ensures watch { request_text
        (request.Watch (record {
          range = record { key = 97 ∷ []; end = [] };
          start = 4;
          no_put = true;
          no_delete = false;
          prev_kv = false;
          progress = false;
        }))
        ≡ codes "{\"create_request\":{\"filters\":[\"NOPUT\"],\"key\":\"YQ==\",\"start_revision\":\"4\"}}" }
    ensures no_fields { request_text request.Leases ≡ codes "{}" }
    ensures reply { answer_text
        (Done (record {
          header = record { cluster = 14841639068965178418; member = 0; revision = 3; term = 2 };
          body = body.Range 1 false (record {
            key = 97 ∷ [];
            value = [];
            create = 2;
            modified = 3;
            version = 2;
            lease = 0;
          } ∷ []);
        }))
        ≡ codes "{\"count\":\"1\",\"header\":{\"cluster_id\":\"14841639068965178418\",\"raft_term\":\"2\",\"revision\":\"3\"},\"kvs\":[{\"create_revision\":\"2\",\"key\":\"YQ==\",\"mod_revision\":\"3\",\"version\":\"2\"}]}" }
    ensures time_left { answer_text
        (Done (record {
          header = record { cluster = 0; member = 0; revision = 0; term = 0 };
          body = body.TimeToLive 7 (negsuc 0) 0 [];
        }))
        ≡ codes "{\"ID\":\"7\",\"TTL\":\"-1\",\"header\":{}}" }
    ensures refusal { answer_text (Refused (record { code = 5; text = codes "no lease" })) ≡ codes "{\"code\":5,\"message\":\"no lease\"}" }
    ensures status { answer_status (Refused (record { code = 5; text = [] })) ≡ 404 }
    ensures deletion { item_text (Events (record { cluster = 0; member = 0; revision = 0; term = 0 }) (record { change = change.Delete (97 ∷ []) 5; prev = None } ∷ []))
        ≡ codes "{\"result\":{\"events\":[{\"kv\":{\"key\":\"YQ==\",\"mod_revision\":\"5\"},\"type\":\"DELETE\"}],\"header\":{}}}\n" }
{}

/// A law: lowerCamelCase names of the API's fields, as they are made from the plain ones; three plain names have capitals.
pub fn camel_by_example()
    ensures two_words { names.range_end ≡ (codes "range_end", codes "rangeEnd") }
    ensures three_words { names.min_create_revision ≡ (codes "min_create_revision", codes "minCreateRevision") }
    ensures one_word { names.serializable ≡ (codes "serializable", codes "serializable") }
    ensures capitals { names.grantedTTL ≡ (codes "grantedTTL", codes "grantedTTL") }
    ensures lease { names.ID ≡ (codes "ID", codes "ID") }
    ensures each { (plain : List ℕ) → names.named plain ≡ (plain, camel plain) }
{}

/// A law: JSON nests at most 127 deep.
pub fn limits_are()
    ensures depth { max_depth ≡ 127 }
{}
