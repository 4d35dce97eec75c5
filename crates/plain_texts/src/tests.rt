use fpl_canonical::write;
use fpl_reader::{ReaderError, read};
use std::alloc::Global;

// The texts below are short.
fn rewrite(alloc: Global, text: &str) -> Result<Vec<u8>, ReaderError> {
    if text.len() > 1000 {
        return Err(ReaderError::NoMemory);
    }
    let p = read(alloc, text.as_bytes())?;
    Ok(write(alloc, &p)?)
}

// The canonical texts are those of an independent program.
#[test]
fn texts_have_canonical_texts(rt: HostRuntime) {
    let cases = [
        (
            "field Q; even x,y; relation -x + 2/4*(x - y);",
            "field Q;\neven x:1;\neven y:1;\nrelation -1*x + 1/2*(x - 1*y) = 0;\n",
        ),
        (
            "field 0007; odd b:2; even a; relation [a,-b] = 3*(0*[a,b] - [a,(b)]); ideal 10/4*a; equal a = -2/3*a;",
            "field 7;\nodd b:2;\neven a:1;\nrelation [a,6*b] = 3*(0*[a,b] + 6*[a,b]);\nideal 6*a;\nequal a = 4*a;\n",
        ),
        (
            "field Q; even x:1000, y:2; odd u; ideal -(2*(-3*[x,(y)])); relation (x + (x - 1/2*x)) - 1/3*x;",
            "field Q;\neven x:1000;\neven y:2;\nodd u:1;\nrelation (x + (x - 1/2*x)) - 1/3*x = 0;\nideal -1*(2*(-3*[x,y]));\n",
        ),
        (
            "field Q; even x; relation (-2*x) + (-1*x) - (x + x) - (-1/3*x) + 2*(x - 0) - 0/5*x; ideal (((x)));",
            "field Q;\neven x:1;\nrelation -2*x - 1*x - 1*(x + x) - 1*(-1/3*x) + 2*(x - 1*0) + 0*x = 0;\nideal x;\n",
        ),
        (
            "relation x = 4/2*(x - 2*0) - 0; even Q; field Q; even x; equal Q = Q; relation (-2*Q) + Q;",
            "field Q;\neven Q:1;\neven x:1;\nrelation x = 2*(x - 2*0) - 1*0;\nrelation -2*Q + Q = 0;\nequal Q = Q;\n",
        ),
        (
            "field 65521; even x; relation -x - 2*x + (-1/2*x);",
            "field 65521;\neven x:1;\nrelation 65520*x + 65519*x + 32760*x = 0;\n",
        ),
        ("field Q;", "field Q;\n"),
    ];
    for (text, want) in cases {
        match rewrite(rt.alloc(), text) {
            Ok(written) => assert_eq!(rt; written.as_slice(), want.as_bytes(), "{text}"),
            Err(_) => assert!(rt; false, "{text}"),
        }
    }
}
