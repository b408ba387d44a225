//! The two names of the fields that replies alone have.
use crate::names::Names;

pub const CLUSTER_ID: Names = Names {
    plain: "cluster_id",
    camel: "clusterId",
};

pub const MEMBER_ID: Names = Names {
    plain: "member_id",
    camel: "memberId",
};

pub const RAFT_TERM: Names = Names {
    plain: "raft_term",
    camel: "raftTerm",
};

pub const HEADER: Names = Names {
    plain: "header",
    camel: "header",
};

pub const KVS: Names = Names {
    plain: "kvs",
    camel: "kvs",
};

pub const MORE: Names = Names {
    plain: "more",
    camel: "more",
};

pub const COUNT: Names = Names {
    plain: "count",
    camel: "count",
};

pub const DELETED: Names = Names {
    plain: "deleted",
    camel: "deleted",
};

pub const PREV_KVS: Names = Names {
    plain: "prev_kvs",
    camel: "prevKvs",
};

pub const SUCCEEDED: Names = Names {
    plain: "succeeded",
    camel: "succeeded",
};

pub const RESPONSES: Names = Names {
    plain: "responses",
    camel: "responses",
};

pub const RESPONSE_RANGE: Names = Names {
    plain: "response_range",
    camel: "responseRange",
};

pub const RESPONSE_PUT: Names = Names {
    plain: "response_put",
    camel: "responsePut",
};

pub const RESPONSE_DELETE_RANGE: Names = Names {
    plain: "response_delete_range",
    camel: "responseDeleteRange",
};

pub const RESPONSE_TXN: Names = Names {
    plain: "response_txn",
    camel: "responseTxn",
};

pub const GRANTED_TTL: Names = Names {
    plain: "grantedTTL",
    camel: "grantedTTL",
};

pub const LEASES: Names = Names {
    plain: "leases",
    camel: "leases",
};

pub const CREATED: Names = Names {
    plain: "created",
    camel: "created",
};

pub const CANCELED: Names = Names {
    plain: "canceled",
    camel: "canceled",
};

pub const COMPACT_REVISION: Names = Names {
    plain: "compact_revision",
    camel: "compactRevision",
};

pub const EVENTS: Names = Names {
    plain: "events",
    camel: "events",
};

pub const TYPE: Names = Names {
    plain: "type",
    camel: "type",
};

pub const KV: Names = Names {
    plain: "kv",
    camel: "kv",
};

pub const CODE: Names = Names {
    plain: "code",
    camel: "code",
};

pub const MESSAGE: Names = Names {
    plain: "message",
    camel: "message",
};

/// The names of an event's kinds, from number 0, with one space between two of them.
pub const EVENT_TYPES: &str = "PUT DELETE";
