//! Shows that the keys in what a transaction was answered are made of bytes, as every `Bytes` is. It does nothing else.
#![tactic(auto)]

ghost use Rattle.std.specs.Prelude.{◌≡◌, ◌<◌, true, All};
ghost use Rattle.std.specs.List.{list_all, flat_map};
ghost use Rattle.proxy_model.specs.Prefixes.{are_bytes};
ghost use Rattle.proxy_model.specs.Readings.{records_of};
ghost use Rattle.core_laws.specs.Writes.Laws.{shows_bytes};

use etcd_types::{Body, Bytes, Kv};

/// The keys of the records that the body shows are made of bytes.
pub fn show_body(body: &Body)
    ensures { shows_bytes body.now ≡ true }
{
    match body {
        Body::Txn { bodies, .. } => show_bodies(bodies.as_slice()),
        _ => {}
    }
}

fn show_bodies(bodies: &[Body])
    ensures { list_all (λ kv. are_bytes kv.key) (flat_map records_of bodies.now) ≡ true }
{
    for body in bodies {
        show_records(body);
    }
}

fn show_records(body: &Body)
    ensures { list_all (λ kv. are_bytes kv.key) (records_of body.now) ≡ true }
{
    match body {
        Body::Range { kvs, .. } => show_keys(kvs.as_slice()),
        _ => {}
    }
}

fn show_keys(kvs: &[Kv])
    ensures { list_all (λ kv. are_bytes kv.key) kvs.now ≡ true }
{
    for kv in kvs {
        show_key(&kv.key);
    }
}

fn show_key(key: &Bytes)
    ensures { are_bytes key.now ≡ true }
{
    show_all(key.as_slice());
}

fn show_all(bytes: &[u8])
    ensures { All (λ b. b < 256) bytes.now }
{}
