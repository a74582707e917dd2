//! Spots of each game. The cases of `run_cases` have the reports of runs over them.

const SPOTS: &[&[u8]] = &[
    b"holdem Qd Qh - 8s 9s -- 2h 7s Ts",
    b"holdem Kd As - Kc Ah - 7c 7d -- Th Js Qs",
    b"holdem 2c 7d - 2d 7h - 3c 8d - 3d 8h - 4c 9d - 4d 9h - 5c Td - 5d Th - 6c Jd - 6d Jh -- As Ks Qc",
    b"holdem As Kd - Qc Qh -- Qs Js Ts 2d",
    b"holdem Ac Ad - Kc Kd -- 2c 3c 4c 5c 6c",
    b"omaha8 As 2d Kh Qh - 3c 4d 9s 9h -- 5s 6h Js",
    b"omaha8 As 2s Kd Kh - Ad 3d Qc Qs - 4c 5c 6d 7d - Ah 8h 9c Tc - Ts Js Jd 9d - 2h 3h 4h 6h -- 5s 7s Kc",
    b"omaha8 As 2s Kd Kh - Qc Qd Jc Jd -- 3h 4c 8s 9h",
    b"omaha8 Ac 2c 3c 4c - Ad 2d Kd Kh -- 5h 6h 7s 8s 9s",
    b"stud As Ks Qs 2d 3h 4c - Ad Kd Qd 2c 3s 4h",
    b"stud 9c 9d 8h 8s 7c 2d - Ac Kc Qc Jc 2h - Ad Kd 5d 5h 5s 3c 2s / 2c 3d 3h 3s 4c 4d 4h 4s 5c 6c 6d 6h 6s 7d",
    b"stud Ac Ad 2c 3d 4h 5s - Kc Kd 6c 7d 8h 9s - Qc Qd Jc 2h 9d 8s / 2d 2s 3c 3h 3s 4c 4d 4s 5c 5d 5h 6d 6h 6s 7c 7h 7s 8c 8d Ts Th Ah",
    b"stud 9h 9s 5h 5d 8s 2s 3s - As Ks Qs / 2c 2d 2h 3c 3d 3h 4c 4d 4h 4s 5c 5s 6c 6d 6h 6s 7c 7d 7h 7s 8c 8d 8h 9c 9d Tc Td Js Jc Qc",
    b"razz As 2d 3h 4c 5s 6d - 8c 8d Kc Kd Qc Qd",
    b"razz As 2s 3s Ks Kd - Ad 2d 4d 4h 9c 9d 6s / 2c 2h 3c 3d 3h 4c 4s 5c 5d 5h",
    b"razz As 4s 6s 8s Ks Kd - Ad 2d 7d 9d Kc Qd - Ah 3h 5h 9h 9s Kh / 2c 2h 2s 3c 3d 3s 4c 4d 4h 5c 5d 5s 6c 6d Tc Td Th Ts Jc Jd Jh Js",
    b"razz As 2s 3s 8s Ks Kd Qd - Ad 2d 3d / 2c 2h 3c 3h 4c 4d 4h 5c 5h 5s 6c 6h 6s 7c 7h 7s 8c 8d 8h 9c Tc Td Th Ts Jc Jd Js Jh Qs Qh",
    b"lowball27 7c 5d 4h 3s - 8d 6h 5s 4c",
    b"lowball27 7c 5d 4h - 8d 6h 5s / 2d 2h 2s 3c 3d 4c 4d 4s 5c 5h 6c 6d 6s 7d 7h 7s 8c 8h 8s 9c 9d 9h 9s Tc Td Th Ts Jc Jd Jh Js Qc Qd Qh Qs Kc",
    b"lowball27 9c 5d 4h - 8d 6h 5s 3s - 7c 4s 3c 2d / 2h 2s 3d 4c 4d 5c 5h 6c 6d 6s 7d 7h 7s 8c 8h 8s 9d 9h Tc Td Th Ts Jc Jd Jh Js Qc Qd Qh",
    b"lowball27 7c 5d 4h 3s 2c - 7d 5h 4s 3c",
    b"lowball27 Kc Qd 9h 8s 2c - 7d / 2d 2h 2s 3c 3d 4c 5c 5h 5s 6c 6h 6s 7h 7s 8d 8h 9d 9s Tc Td Th Ts Jc Jd Jh Js Qc Ac Ad Kd",
    b"omaha 5d 5h 2d 8c - As 8s Ad Qh - 2h 4c 6d Kc -- 7h 8h 3s",
    b"omaha As Ac 2d 2c - Ks Kh Qd Jc -- 3s 6s 9s Ts",
    b"omaha As 2s Kd Kh - Ad 3d Qc Qs - 4c 5c 6d 7d - Ah 8h 9c Tc - Ts Js Jd 9d - 2h 3h 4h 6h -- 5s 7s Kc",
    b"omaha Ac 2c 3c 4c - Ad 2d Kd Kh -- 5h 6h 7s 8s 9s",
    b"stud8 3s 7h Js Td 2d 4s - 2s 3h Ts 3d Ks 9s",
    b"stud8 As 2s 3d Kd Kh 4c - Ad 2d 3c Qc Qh 5h - 8c 7c 6h 9d 9h Js / 2c 3h 3s 4d 5c 5d 6c 6d 7d 7h 8d 8h 9s Tc Td Ts Jc Jd Jh Qd Ks Ah",
    b"stud8 As 2s 3d 4c Kd Kh Qd - Ad 2d 3c / 2c 3h 3s 4d 5c 5d 5h 6c 6d 6h 7c 7d 7h 8c 8d 8h 9d 9h 9s Tc Td Ts Jc Jd Jh Js Qc Qh Ks Ah",
    b"draw5 2h Qd 8c 8s - 2s Js 6c 9d",
    b"draw5 Ah Kh Qh Jh - 9c 9d - 8s 8d 8h / 2c 2d 2s 3c 3d 3s 4c 4d 4h 4s 5c 5d 5h 5s 6c 6d 6h 6s 7c 7d 7h 7s Td Jc Jd Js Qc Qd Qs Kc Kd Ks Ad As",
    b"triple27 4s Js 9h As - 3s 4d Kc Ad",
    b"triple27 2h 2c 4d 5h - 4s 9d 8h 6c Kd - Ts 2s Qd 9h",
    b"triple27 9c 5d 4h - 8d 6h 5s 3s - 7c 4s 3c 2d / 2h 3h 4c 4d 5h 6d 6s 7h 7s 8c 8h 9d 9h Tc Td Th Ts Jc Jh Js Qc Qd Qh Qs Kd Kh Ks Ac Ad As",
];

/// Returns all spots.
pub(crate) fn spots() -> &'static [&'static [u8]] {
    SPOTS
}
